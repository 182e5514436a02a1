// The files of the machine.
ghost use Rattle.std.specs.Prelude.{◌≡◌, ◌<◌, ◌≤◌, None, length, IfOk, IfSome};

mod storing;
mod ways;

use crate::{FileFault, Files, StoreFault};
use std::alloc::Global;
use std::fs;
use std::fs::File;
use std::io::{Read, Stderr, Write};
use std::rt::Files as FileSystem;
use storing::{append, append_to_pipe, replace};
use ways::{Identity, Way, identity_of, way_of};

/// The files that the system holds. They tell nothing of what they hold.
#[derive(Drop)]
pub struct HostFiles<R> {
    rt: R,
    err: Stderr,
    alloc: Global,
    // The file that was loaded last.
    loaded: Option<Identity>,
    faults: u64,
}

impl<R: FileSystem> HostFiles<R> {
    /// Files of which none was used yet. A name is a path; one that stands for standard error is written to `err`.
    pub fn new(alloc: Global, rt: R, err: Stderr) -> HostFiles<R>
        ensures told { ⟦<HostFiles<R> as Files>⟧.told result ≡ None }
        ensures faults { ⟦<HostFiles<R> as Files>⟧.faults result ≡ 0 }
    {
        HostFiles {
            rt,
            err,
            alloc,
            loaded: None,
            faults: 0,
        }
    }
}

impl<R: FileSystem> Files for HostFiles<R> {
    ghost told = { λ _. None };

    ghost faults = { λ s. s.faults };

    fn load(&mut self, name: &str, limit: usize) -> Result<Vec<u8>, FileFault> {
        self.loaded = identity_of(&self.rt, name);
        let answer = match File::open(&self.rt, name) {
            Ok(file) => read_within(self.alloc, file, limit),
            Err(error) => Err(error.into()),
        };
        if matches!(answer, Err(FileFault::Failed)) {
            self.faults = self.faults.saturating_add(1);
        }
        answer
    }

    fn store(&mut self, name: &str, bytes: &[u8]) -> Result<(), StoreFault> {
        let answer = match way_of(&self.rt, name, self.loaded) {
            Way::Replace => replace(self.alloc, &self.rt, name, bytes),
            Way::Through => fs::write(&self.rt, name, bytes).map_err(StoreFault::from),
            Way::Append => append(&self.rt, name, bytes),
            Way::Pipe => append_to_pipe(&self.rt, name, bytes),
            Way::StandardError => self.err.write_all(bytes).map_err(StoreFault::from),
            Way::Never => Err(StoreFault::Failed),
        };
        if matches!(answer, Err(StoreFault::Failed)) {
            self.faults = self.faults.saturating_add(1);
        }
        answer
    }
}

// All that the reader has, if it is within the limit. No more than one byte beyond it is read.
fn read_within<R: Read + Drop>(alloc: Global, reader: R, limit: usize) -> Result<Vec<u8>, FileFault>
    ensures within { IfOk result (λ content. length content.items ≤ limit) }
    ensures content { IfOk result (λ content. IfSome (R.remaining reader)
        (λ bytes. content.items ≡ bytes)) }
    ensures too_long { result ≡ Err FileFault.TooLong
        → IfSome (R.remaining reader) (λ bytes. limit < length bytes) }
{
    let mut content = Vec::new(alloc);
    reader
        .take((limit as u64).saturating_add(1))
        .read_to_end(&mut content)?;
    if content.len() > limit {
        return Err(FileFault::TooLong);
    }
    Ok(content)
}
