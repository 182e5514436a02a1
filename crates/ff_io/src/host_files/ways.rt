// The ways in which bytes come to stand under a name.
use std::fs;
use std::fs::Metadata;
use std::os::unix::fs::{FileTypeExt, MetadataExt};
use std::rt::Files as FileSystem;

/// How a name is stored.
#[derive(Clone, Copy, Debug, PartialEq, Eq)]
pub enum Way {
    /// A new file takes the place of the old one: the name is free, or that of a plain file.
    Replace,
    /// The name is a link to a plain file or to none: the bytes take the place of those there, and the link stays.
    Through,
    /// The name is that of a device or lies in a folder of the system: the bytes go behind those that are there.
    Append,
    /// The name is that of a pipe, which may have no reader.
    Pipe,
    /// The name stands for standard error. Opened anew, a file that it is led to would be written from its beginning
    /// by what comes after.
    StandardError,
    /// The name is that of the very file or pipe that standard input is led to, of the file that output or error is led to, or of
    /// the one that was loaded: what is read from there or was written there would be lost, or read again.
    Never,
}

/// A file of the machine, whatever its names are: its device, and its number there.
pub type Identity = (u64, u64);

/// The file that this name stands for, if there is one.
pub fn identity_of<R: FileSystem>(rt: &R, name: &str) -> Option<Identity> {
    let file = fs::metadata(rt, name).ok()?;
    Some((file.dev(), file.ino()))
}

/// How to store this name, where this file was loaded.
pub fn way_of<R: FileSystem>(rt: &R, name: &str, loaded: Option<Identity>) -> Way {
    let Ok(link) = fs::symlink_metadata(rt, name) else {
        return if is_of_system(name) {
            Way::Append
        } else {
            Way::Replace
        };
    };
    let Ok(file) = fs::metadata(rt, name) else {
        return Way::Through;
    };
    if is_of_system(name) && is_file_of(rt, &file, "/dev/stderr") {
        return Way::StandardError;
    }
    let is_pipe = file.file_type().is_fifo();
    if (is_pipe || file.is_file()) && is_file_of(rt, &file, "/dev/stdin") {
        return Way::Never;
    }
    if is_pipe {
        return Way::Pipe;
    }
    if is_of_system(name) || !file.is_file() {
        return Way::Append;
    }
    if is_written(rt, &file) || loaded == Some((file.dev(), file.ino())) {
        return Way::Never;
    }
    if link.is_file() {
        Way::Replace
    } else {
        Way::Through
    }
}

// Whether the name lies in one of the folders of devices and processes.
fn is_of_system(name: &str) -> bool {
    name.starts_with("/dev/") || name.starts_with("/proc/")
}

// Whether this is the file that standard output or standard error is led to.
fn is_written<R: FileSystem>(rt: &R, file: &Metadata) -> bool {
    is_file_of(rt, file, "/dev/stdout") || is_file_of(rt, file, "/dev/stderr")
}

// Whether this is the file that another name stands for.
fn is_file_of<R: FileSystem>(rt: &R, file: &Metadata, name: &str) -> bool {
    identity_of(rt, name) == Some((file.dev(), file.ino()))
}
