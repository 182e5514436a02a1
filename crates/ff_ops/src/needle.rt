// A text that is looked for in fields.
ghost use Rattle.std.specs.Prelude.{◌≡◌, IfOk};
ghost use Rattle.ff_ops.specs.FieldOps.{occurs};

use ff_rec::{Field, Kept, NoMemory};
use memchr::memmem::Finder;
use std::alloc::Global;
use std::marker::Model;

/// A text with the search for it, which is made once and not anew for each record.
#[derive(Debug, Drop)]
pub struct Needle {
    finder: Finder<'static>,
}

impl Model for Needle {
    ghost use Rattle.std.specs.Prelude.{List, ℕ};

    ghost Value = { List ℕ };

    ghost view = { λ n. n.finder };
}

impl Needle {
    /// The search for a text.
    pub fn new(alloc: Global, text: &Field) -> Result<Needle, NoMemory>
        ensures { IfOk result (λ needle. needle ≡ text.now) }
    {
        Ok(Needle {
            finder: Finder::new(text.bytes()).into_owned(alloc)?,
        })
    }

    /// Whether the text stands in these bytes.
    pub fn stands_in(&self, bytes: &[u8]) -> bool
        ensures { result ≡ occurs self.now bytes.now }
    {
        self.finder.find(bytes).is_some()
    }
}

impl Kept for Needle {
    fn copy(&self) -> Result<Needle, NoMemory> {
        Ok(Needle {
            finder: self.finder.clone()?,
        })
    }
}
