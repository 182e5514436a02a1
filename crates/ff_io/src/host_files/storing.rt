// How bytes are put under a name of the machine.
ghost use Rattle.std.specs.Prelude.{OnOk};
ghost use Rattle.std.specs.Io.KnownBytes.{Appends};

use crate::StoreFault;
use std::alloc::Global;
use std::fs::{File, OpenFile};
use std::io::{ErrorKind, Write};
use std::rt::Files as FileSystem;
use std::{fs, io};

/// What the name of a new file beside another ends in. A run that was killed may have left the first of them.
pub const SUFFIXES: [&str; 4] = [".new", ".new2", ".new3", ".new4"];

/// Puts a new file in the place of the old one, with the rights of the old one, once all of it is on the disk. Until then the name
/// holds what it held.
pub fn replace<R: FileSystem>(
    alloc: Global,
    rt: &R,
    name: &str,
    bytes: &[u8],
) -> Result<(), StoreFault> {
    let (beside, mut file) = create_beside(alloc, rt, name)?;
    // The rights come first, so that nobody reads what the old file kept from him.
    let answer = keep_rights(rt, name, &file)
        .and_then(|()| fill(&mut file, bytes))
        .and_then(|()| fs::rename(rt, beside.as_str(), name));
    if answer.is_err() {
        // What was begun isn't left behind. That this may fail too changes nothing.
        let _ = fs::remove_file(rt, beside.as_str());
    }
    Ok(answer?)
}

// A new file beside the one with this name, with its own name.
fn create_beside<R: FileSystem>(
    alloc: Global,
    rt: &R,
    name: &str,
) -> Result<(String, R::File), StoreFault> {
    for suffix in SUFFIXES {
        let mut beside = String::from_str(alloc, name)?;
        beside.push_str(suffix)?;
        match File::create_new(rt, beside.as_str()) {
            Ok(file) => return Ok((beside, file)),
            Err(error) if error.kind() == ErrorKind::AlreadyExists => {}
            Err(error) => return Err(error.into()),
        }
    }
    Err(StoreFault::Failed)
}

// Gives the new file the rights of the file with this name, if there is one.
fn keep_rights<R: FileSystem>(rt: &R, name: &str, file: &R::File) -> io::Result<()> {
    match fs::metadata(rt, name) {
        Ok(old) => file.set_permissions(old.permissions()),
        Err(_) => Ok(()),
    }
}

// Writes all bytes and waits until they are on the disk.
fn fill<W: Write + OpenFile>(file: &mut W, bytes: &[u8]) -> io::Result<()>
    ensures { OnOk result (Appends (W.contents file.old) (W.contents file.new) bytes.now) }
{
    file.write_all(bytes)?;
    file.sync_all()
}

/// Writes the bytes behind those that the name holds.
pub fn append<R: FileSystem>(rt: &R, name: &str, bytes: &[u8]) -> Result<(), StoreFault> {
    let mut file = File::options().append(true).create(true).open(rt, name)?;
    Ok(file.write_all(bytes)?)
}

/// Writes the bytes into a pipe. Where nobody reads from it this fails, and doesn't wait for a reader: while the pipe is
/// open both ways it may be opened for writing.
pub fn append_to_pipe<R: FileSystem>(rt: &R, name: &str, bytes: &[u8]) -> Result<(), StoreFault> {
    let both = File::options().read(true).write(true).open(rt, name)?;
    let file = File::options().append(true).open(rt, name);
    drop(both);
    Ok(file?.write_all(bytes)?)
}
