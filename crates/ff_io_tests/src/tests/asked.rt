// The files of the machine, and a note of the first file that is asked for.
use std::alloc::Allocator;
use std::cell::Cell;
use std::fs::{Metadata, OpenOptions};
use std::io;
use std::io::ErrorKind;
use std::rt::Files as FileSystem;

/// How a file was asked for.
#[derive(Clone, Copy, Debug, PartialEq, Eq)]
pub enum Asked {
    /// None was asked for.
    Never,
    /// A new one.
    New,
    /// One to be written behind what it holds.
    Behind,
    /// One to be read and written, or to be written from its beginning.
    Else,
}

// How these options ask for a file.
fn asked_by(how: &OpenOptions) -> Asked {
    if how.asks_create_new() {
        Asked::New
    } else if how.asks_append() {
        Asked::Behind
    } else {
        Asked::Else
    }
}

/// Such files. None takes the place of another one.
#[derive(Drop)]
pub struct Noting<R> {
    rt: R,
    first: Cell<Asked>,
}

impl<R> Noting<R> {
    pub fn new(rt: R) -> Noting<R> {
        Noting {
            rt,
            first: Cell::new(Asked::Never),
        }
    }

    /// How the first file was asked for.
    pub fn first(&self) -> Asked {
        self.first.get()
    }
}

impl<R: FileSystem> FileSystem for Noting<R> {
    type File = R::File;

    type Dir = R::Dir;

    fn open_file(&self, how: &OpenOptions, path: &str) -> io::Result<R::File> {
        if self.first.get() == Asked::Never {
            self.first.set(asked_by(how));
        }
        self.rt.open_file(how, path)
    }

    fn open_dir(&self, path: &str) -> io::Result<R::Dir> {
        self.rt.open_dir(path)
    }

    fn metadata(&self, path: &str) -> io::Result<Metadata> {
        self.rt.metadata(path)
    }

    fn symlink_metadata(&self, path: &str) -> io::Result<Metadata> {
        self.rt.symlink_metadata(path)
    }

    fn copy(&self, _from: &str, _to: &str) -> io::Result<u64> {
        Err(ErrorKind::Unsupported.into())
    }

    fn rename(&self, _from: &str, _to: &str) -> io::Result<()> {
        Err(ErrorKind::Unsupported.into())
    }

    fn remove_file(&self, path: &str) -> io::Result<()> {
        self.rt.remove_file(path)
    }

    fn create_dir(&self, path: &str) -> io::Result<()> {
        self.rt.create_dir(path)
    }

    fn remove_dir(&self, path: &str) -> io::Result<()> {
        self.rt.remove_dir(path)
    }

    fn remove_dir_all<B: Allocator>(&self, alloc: B, path: &str) -> io::Result<()> {
        self.rt.remove_dir_all(alloc, path)
    }
}
