// One field of a record.
ghost use Rattle.std.specs.Prelude.{◌≡◌, IfOk};
ghost use Rattle.ff_rec.specs.Lines.{IsPlain};
ghost use Rattle.ff_rec.specs.Field.{IsFieldAnswer};

use crate::{FieldFault, Kept, NoMemory};
use memchr::memchr2;
use std::alloc::Global;
use std::marker::Model;

/// Bytes without tab and newline.
#[derive(Debug, Drop)]
pub struct Field {
    bytes: Vec<u8>,
}

impl Model for Field {
    ghost use Rattle.std.specs.Prelude.{List, ℕ};
    ghost use Rattle.ff_rec.specs.Lines.{IsPlain};

    ghost Value = { List ℕ };

    ghost view = { λ f. f.bytes.items };

    ghost invariant = { λ f. IsPlain f.bytes.items };
}

impl Field {
    /// The field of these bytes.
    pub fn new(alloc: Global, bytes: &[u8]) -> Result<Field, FieldFault>
        ensures { IsFieldAnswer bytes.now result }
    {
        if let Some(at) = memchr2(b'\t', b'\n', bytes) {
            return Err(FieldFault::BadByte(at));
        }
        match Field::of_plain(alloc, bytes) {
            Ok(field) => Ok(field),
            Err(NoMemory) => Err(FieldFault::NoMemory),
        }
    }

    /// The field of bytes that are known to be without tab and newline.
    pub fn of_plain(alloc: Global, bytes: &[u8]) -> Result<Field, NoMemory>
        requires { IsPlain bytes.now }
        ensures { IfOk result (λ f. f ≡ bytes.now) }
    {
        Ok(Field {
            bytes: Vec::from_slice(alloc, bytes)?,
        })
    }

    /// Its bytes.
    pub fn bytes(&self) -> &[u8]
        ensures bytes { result.now ≡ self.now }
        ensures plain { IsPlain result.now }
    {
        self.bytes.as_slice()
    }
}

impl Kept for Field {
    fn copy(&self) -> Result<Field, NoMemory> {
        Ok(Field {
            bytes: self.bytes.clone()?,
        })
    }
}
