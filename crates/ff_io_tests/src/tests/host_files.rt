use super::asked::{Asked, Noting};
use super::{check_load, check_refusal, check_store};
use ff_io::{FileFault, Files, HostFiles, StoreFault};
use std::fs;
use std::fs::Permissions;
use std::os::unix::fs::{PermissionsExt, symlink};
use std::rt::Files as FileSystem;
use std::test::Fail;

const NAME: &str = "ff_io_host_files_test";

// Whether a file of this name with such a suffix is there.
fn stands_beside(rt: &HostRuntime, suffix: &str) -> Result<bool, Fail> {
    let mut beside = String::from_str(rt.alloc(), NAME)?;
    beside.push_str(suffix)?;
    Ok(fs::exists(rt, beside.as_str())?)
}

#[test]
fn file_is_stored_and_loaded(rt: HostRuntime) -> Result<(), Fail> {
    let mut files = HostFiles::new(rt.alloc(), rt, rt.stderr());
    check_store(&rt, &mut files, NAME, b"first");
    check_load(&rt, &mut files, NAME, 5, b"first");
    // What was loaded is never replaced.
    let refused = files.store(NAME, b"lost");
    assert_eq!(rt; refused, Err(StoreFault::Failed));
    check_load(&rt, &mut files, NAME, 5, b"first");
    let mut files = HostFiles::new(rt.alloc(), rt, rt.stderr());
    check_store(&rt, &mut files, NAME, b"second");
    check_refusal(&rt, &mut files, NAME, 5, FileFault::TooLong);
    check_load(&rt, &mut files, NAME, 6, b"second");
    check_load(&rt, &mut files, NAME, usize::MAX, b"second");
    fs::remove_file(&rt, NAME)?;
    check_refusal(&rt, &mut files, NAME, 9, FileFault::Failed);
    for suffix in [".new", ".new2", ".new3", ".new4"] {
        assert!(rt; !stands_beside(&rt, suffix)?);
    }
    Ok(())
}

#[test]
fn file_that_stands_beside_is_left_alone(rt: HostRuntime) -> Result<(), Fail> {
    let mut files = HostFiles::new(rt.alloc(), rt, rt.stderr());
    fs::write(&rt, "ff_io_beside_test.new", "another")?;
    check_store(&rt, &mut files, "ff_io_beside_test", b"own");
    check_load(&rt, &mut files, "ff_io_beside_test", 9, b"own");
    check_load(&rt, &mut files, "ff_io_beside_test.new", 9, b"another");
    fs::remove_file(&rt, "ff_io_beside_test")?;
    fs::remove_file(&rt, "ff_io_beside_test.new")?;
    Ok(())
}

#[test]
fn a_new_file_has_the_rights_of_the_old_one(rt: HostRuntime) -> Result<(), Fail> {
    let mut files = HostFiles::new(rt.alloc(), rt, rt.stderr());
    fs::write(&rt, "ff_io_rights_test", "old")?;
    rt.set_permissions("ff_io_rights_test", Permissions::from_mode(0o600))?;
    check_store(&rt, &mut files, "ff_io_rights_test", b"new");
    let rights = fs::metadata(&rt, "ff_io_rights_test")?.permissions();
    assert_eq!(rt; rights.mode() & 0o777, 0o600);
    fs::remove_file(&rt, "ff_io_rights_test")?;
    Ok(())
}

#[test]
fn link_stays_a_link(rt: HostRuntime) -> Result<(), Fail> {
    let mut files = HostFiles::new(rt.alloc(), rt, rt.stderr());
    fs::write(&rt, "ff_io_target_test", "old")?;
    symlink(&rt, "ff_io_target_test", "ff_io_link_test")?;
    check_store(&rt, &mut files, "ff_io_link_test", b"new");
    check_load(&rt, &mut files, "ff_io_target_test", 9, b"new");
    fs::remove_file(&rt, "ff_io_link_test")?;
    fs::remove_file(&rt, "ff_io_target_test")?;
    Ok(())
}

#[test]
fn devices_are_written_and_never_replaced(rt: HostRuntime) {
    for (name, asked, answer) in [
        ("/dev/null", Asked::Behind, Ok(())),
        ("/dev/full", Asked::Behind, Err(StoreFault::Failed)),
        ("/dev/stderr", Asked::Never, Ok(())),
        ("/proc/ff_io_none", Asked::Behind, Err(StoreFault::Failed)),
        ("ff_io_no_folder/a", Asked::New, Err(StoreFault::Failed)),
    ] {
        let noting = Noting::new(rt);
        let mut files = HostFiles::new(rt.alloc(), &noting, rt.stderr());
        assert_eq!(rt; files.store(name, b"1\n"), answer, "{name}");
        assert_eq!(rt; noting.first(), asked, "{name}");
    }
}

#[test]
fn what_is_appended_stands_behind(rt: HostRuntime) -> Result<(), Fail> {
    let mut files = HostFiles::new(rt.alloc(), rt, rt.stderr());
    // The folder of processes tells which folder this one is in.
    for line in [b"a\n", b"b\n"] {
        check_store(&rt, &mut files, "/proc/self/cwd/ff_io_append_test", line);
    }
    check_load(&rt, &mut files, "ff_io_append_test", 9, b"a\nb\n");
    fs::remove_file(&rt, "ff_io_append_test")?;
    Ok(())
}

#[test]
fn endless_file_is_too_long(rt: HostRuntime) {
    let mut files = HostFiles::new(rt.alloc(), rt, rt.stderr());
    check_refusal(&rt, &mut files, "/dev/zero", 1000, FileFault::TooLong);
}
