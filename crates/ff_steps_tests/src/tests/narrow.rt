// A node that rejects some records and ends by itself.
use ff_node::{Class, Next, Node, Sends};
use ff_rec::{NoMemory, Record};

// It sends records of at most one byte on, rejects longer ones, and ends after `most` records.
#[derive(Clone, Copy, Debug)]
pub(super) struct Narrow {
    most: u64,
    left: u64,
}

impl Node for Narrow {
    ghost use Rattle.std.specs.Prelude.{◌-◌, nat_eq, nat_lt, length, if◌then◌else◌, [], ◌∷◌, refl};
    ghost use Rattle.ff_rec.specs.Lines.{joined};
    ghost use Rattle.ff_node.specs.declared.class.Class.TheVariants.{Ordered};

    ghost does = { record {
      class = λ s. Ordered;
      opening = λ s. record s { left = s.most };
      sends = λ s x. if nat_lt 1 (length (joined x)) then [] else x ∷ [];
      rejects = λ s x. if nat_lt 1 (length (joined x)) then x ∷ [] else [];
      next = λ s x. record s { left = s.left - 1 };
      ends = λ s x. nat_eq (s.left - 1) 0;
      last = λ s. [];
      last_rejects = λ s. [];
    } };

    ghost keeps_kind = { record { opening_of_opening = λ s. refl; opening_of_next = λ s x. refl; class_of_opening = λ s. refl } };

    ghost class_law = { λ o. tt };

    fn class(&self) -> Class {
        Class::Ordered
    }

    fn copy(&self) -> Result<Narrow, NoMemory> {
        Ok(Narrow {
            most: self.most,
            left: self.most,
        })
    }

    fn svc_init(&mut self) {
        self.left = self.most;
    }

    fn svc(&mut self, r: Record, out: &mut Sends) -> Result<Next, NoMemory> {
        if 1 < r.joined().len() {
            out.reject(r)?;
        } else {
            out.send(r)?;
        }
        self.left = self.left.saturating_sub(1);
        Ok(if self.left == 0 {
            Next::Eos
        } else {
            Next::GoOn
        })
    }

    fn eos_notify(&mut self, _out: &mut Sends) -> Result<(), NoMemory> {
        Ok(())
    }

    fn svc_end(&mut self) {
        self.left = self.most;
    }
}

pub(super) fn narrow_of(most: u64) -> Narrow {
    Narrow { most, left: most }
}
