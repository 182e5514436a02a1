use super::{check_load, check_refusal, check_store};
use ff_io::{FileFault, Files, MemFiles, StoreFault};
use std::alloc::{AllocError, Global};
use std::process::Abort;
use std::test::Fail;

fn entry(alloc: Global, name: &str, bytes: &[u8]) -> Result<(String, Vec<u8>), AllocError> {
    let content = bytes.to_vec(alloc)?;
    Ok((String::from_str(alloc, name)?, content))
}

// Two files with these names and bytes; the calls with these numbers fail.
fn two_files(
    alloc: Global,
    first: (&str, &[u8]),
    second: (&str, &[u8]),
    fail: &[u64],
) -> Result<MemFiles, AllocError> {
    let fail = fail.to_vec(alloc)?;
    let mut list = Vec::new(alloc);
    for (name, bytes) in [first, second] {
        list.push(entry(alloc, name, bytes)?)?;
    }
    Ok(MemFiles::new(list, fail))
}

// The files `a`, with three bytes, and `b`, with none; the calls with these numbers fail.
fn a_and_b(alloc: Global, fail: &[u64]) -> Result<MemFiles, AllocError> {
    two_files(alloc, ("a", b"1\n2"), ("b", b""), fail)
}

fn check_content(rt: &impl Abort, files: &MemFiles, name: &str, want: Option<&[u8]>) {
    assert_eq!(rt; files.content(name), want, "{name}");
}

#[test]
fn load_gives_what_is_within_the_limit(rt: HostRuntime) -> Result<(), Fail> {
    let mut files = a_and_b(rt.alloc(), &[])?;
    check_load(&rt, &mut files, "a", 4, b"1\n2");
    check_load(&rt, &mut files, "a", 3, b"1\n2");
    check_refusal(&rt, &mut files, "a", 2, FileFault::TooLong);
    check_load(&rt, &mut files, "b", 0, b"");
    check_refusal(&rt, &mut files, "c", 9, FileFault::Failed);
    check_content(&rt, &files, "a", Some(b"1\n2"));
    check_content(&rt, &files, "c", None);
    Ok(())
}

#[test]
fn loads_and_stores_fail_by_their_numbers(rt: HostRuntime) -> Result<(), Fail> {
    let mut files = a_and_b(rt.alloc(), &[2, 3])?;
    check_load(&rt, &mut files, "b", 9, b"");
    check_refusal(&rt, &mut files, "b", 9, FileFault::Failed);
    assert_eq!(rt; files.store("b", b"x"), Err(StoreFault::Failed));
    check_content(&rt, &files, "b", Some(b""));
    check_store(&rt, &mut files, "b", b"x");
    check_content(&rt, &files, "a", Some(b"1\n2"));
    check_content(&rt, &files, "b", Some(b"x"));
    Ok(())
}

#[test]
fn store_replaces_a_file_and_adds_a_new_one(rt: HostRuntime) -> Result<(), Fail> {
    let mut files = a_and_b(rt.alloc(), &[])?;
    check_store(&rt, &mut files, "a", b"longer than it was");
    check_store(&rt, &mut files, "c", b"new");
    check_load(&rt, &mut files, "a", 18, b"longer than it was");
    check_load(&rt, &mut files, "c", 3, b"new");
    check_content(&rt, &files, "b", Some(b""));
    Ok(())
}

#[test]
fn of_two_files_with_one_name_the_first_counts(rt: HostRuntime) -> Result<(), Fail> {
    let mut files = two_files(rt.alloc(), ("a", b"first"), ("a", b"second"), &[])?;
    check_load(&rt, &mut files, "a", 9, b"first");
    check_store(&rt, &mut files, "a", b"third");
    check_load(&rt, &mut files, "a", 9, b"third");
    Ok(())
}
