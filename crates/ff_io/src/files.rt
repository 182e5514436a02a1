// Files, which are loaded and stored whole, by name.
ghost use Rattle.std.specs.Prelude.{◌≡◌, ◌<◌, ◌≤◌, ◌↔◌, ℕ, Option, length, IfOk, IfSome, IsErr, OnOk};
ghost use Rattle.std.specs.IoError.{error_kind};
ghost use Rattle.std.specs.declared.io.ErrorKind.TheVariants.{OutOfMemory};
ghost use Rattle.ff_io.specs.Faults.{HasCause, count_after};
ghost use Rattle.ff_io.specs.Files.{Holdings, HoldsBytes, HoldsMore, KeepsAll, KeepsOthers, load_fault, store_fault};
ghost use Rattle.ff_io.specs.declared.files.FileFault.TheVariants.{TooLong, NoMemory as LoadNoMemory};
ghost use Rattle.ff_io.specs.declared.files.StoreFault.TheVariants.{NoMemory as StoreNoMemory};

use ff_rec::NoMemory;
use std::alloc::AllocError;
use std::io;
use std::io::ErrorKind;

/// Why a file wasn't loaded.
#[derive(Clone, Copy, Debug, PartialEq, Eq)]
pub enum FileFault {
    /// There is no such file, or it couldn't be read.
    Failed,
    /// It has more bytes than were asked for.
    TooLong,
    NoMemory,
}

/// Why a file wasn't stored.
#[derive(Clone, Copy, Debug, PartialEq, Eq)]
pub enum StoreFault {
    Failed,
    NoMemory,
}

/// Files by name.
pub trait Files {
    /// What each name holds, where the files tell that.
    ghost told: { Self → Option Holdings };

    /// How often the files failed, as far as a count of 64 bits tells.
    ghost faults: { Self → ℕ };

    /// All bytes of a file, if there are at most `limit`.
    fn load(&mut self, name: &str, limit: usize) -> Result<Vec<u8>, FileFault>
        ensures within { IfOk result (λ content. length content.items ≤ limit) }
        ensures content { IfOk result (λ content. HoldsBytes (told self.old) name.now content.items) }
        ensures long { IfSome (told self.old) (λ holds. IfSome (holds name.now) (λ bytes. limit < length bytes → IsErr result)) }
        ensures too_long { result ≡ Err FileFault.TooLong → HoldsMore (told self.old) name.now limit }
        ensures keeps { KeepsAll (told self.old) (told self.new) }
        ensures cause { HasCause (faults self.old) (faults self.new) (load_fault result) }
        ensures counts { faults self.new ≡ count_after (faults self.old) (load_fault result) };

    /// Lets a name hold these bytes, and makes the file if there is none. After a refusal nothing is known of the name.
    fn store(&mut self, name: &str, bytes: &[u8]) -> Result<(), StoreFault>
        ensures holds { OnOk result (HoldsBytes (told self.new) name.now bytes.now) }
        ensures others { KeepsOthers (told self.old) (told self.new) name.now }
        ensures cause { HasCause (faults self.old) (faults self.new) (store_fault result) }
        ensures counts { faults self.new ≡ count_after (faults self.old) (store_fault result) };
}

impl From<AllocError> for FileFault {
    ghost from_gives = { λ _ fault. fault ≡ LoadNoMemory };

    fn from(_: AllocError) -> Self {
        FileFault::NoMemory
    }
}

impl From<io::Error> for FileFault {
    ghost from_gives = { λ error fault. ((fault ≡ LoadNoMemory) ↔ (error_kind error ≡ OutOfMemory)) × ¬ (fault ≡ TooLong) };

    fn from(error: io::Error) -> Self {
        match error.kind() {
            ErrorKind::OutOfMemory => FileFault::NoMemory,
            _ => FileFault::Failed,
        }
    }
}

impl From<AllocError> for StoreFault {
    ghost from_gives = { λ _ fault. fault ≡ StoreNoMemory };

    fn from(_: AllocError) -> Self {
        StoreFault::NoMemory
    }
}

impl From<NoMemory> for StoreFault {
    ghost from_gives = { λ _ fault. fault ≡ StoreNoMemory };

    fn from(_: NoMemory) -> Self {
        StoreFault::NoMemory
    }
}

impl From<io::Error> for StoreFault {
    ghost from_gives = { λ error fault. (fault ≡ StoreNoMemory) ↔ (error_kind error ≡ OutOfMemory) };

    fn from(error: io::Error) -> Self {
        match error.kind() {
            ErrorKind::OutOfMemory => StoreFault::NoMemory,
            _ => StoreFault::Failed,
        }
    }
}
