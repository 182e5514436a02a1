// A node that rejects some records.
use ff_node::{Class, Next, Node, Sends};
use ff_rec::{NoMemory, Record};

// It sends records of at most one byte on, and rejects longer ones.
#[derive(Clone, Copy, Debug)]
pub(super) struct Sieve {
    most: usize,
}

impl Node for Sieve {
    ghost use Rattle.std.specs.Prelude.{false, nat_lt, length, if◌then◌else◌, [], ◌∷◌, refl};
    ghost use Rattle.ff_rec.specs.Lines.{joined};
    ghost use Rattle.ff_node.specs.Stateless.{KeepsKind-stateless, IsPlainNode-stateless};
    ghost use Rattle.ff_node.specs.declared.class.Class.TheVariants.{Plain};

    ghost does = { record {
      class = λ s. Plain;
      opening = λ s. s;
      sends = λ s x. if nat_lt s.most (length (joined x)) then [] else x ∷ [];
      rejects = λ s x. if nat_lt s.most (length (joined x)) then x ∷ [] else [];
      next = λ s x. s;
      ends = λ s x. false;
      last = λ s. [];
      last_rejects = λ s. [];
    } };

    ghost keeps_kind = { KeepsKind-stateless _ (record { opening = λ s. refl; next = λ s x. refl; ends = λ s x. refl; last = λ s. refl; last_rejects = λ s. refl }) };

    ghost class_law = { λ o. IsPlainNode-stateless _ (record { opening = λ s. refl; next = λ s x. refl; ends = λ s x. refl; last = λ s. refl; last_rejects = λ s. refl }) o };

    fn class(&self) -> Class {
        Class::Plain
    }

    fn copy(&self) -> Result<Sieve, NoMemory> {
        Ok(*self)
    }

    fn svc_init(&mut self) {}

    fn svc(&mut self, r: Record, out: &mut Sends) -> Result<Next, NoMemory> {
        if self.most < r.joined().len() {
            out.reject(r)?;
        } else {
            out.send(r)?;
        }
        Ok(Next::GoOn)
    }

    fn eos_notify(&mut self, _out: &mut Sends) -> Result<(), NoMemory> {
        Ok(())
    }

    fn svc_end(&mut self) {}
}

pub(super) const SIEVE: Sieve = Sieve { most: 1 };
