// A node that sends two records for one.
use ff_net::Test;
use ff_node::{Class, Next, Node, Sends};
use ff_rec::{Kept, NoMemory, Record};

// It sends `to` twice for each record that meets the test, or rejects it, or gives up there as if there were no memory. It sends all
// others on.
#[derive(Drop)]
pub(super) struct Doubling {
    pub(super) from: Test,
    pub(super) to: Record,
    pub(super) rejects: bool,
    pub(super) gives_up: bool,
}

impl Node for Doubling {
    ghost use Rattle.std.specs.Prelude.{false, [], ◌∷◌, if◌then◌else◌, refl};
    ghost use Rattle.ff_net.specs.Levels.{meets};
    ghost use Rattle.ff_node.specs.Stateless.{KeepsKind-stateless, IsPlainNode-stateless};
    ghost use Rattle.ff_node.specs.declared.class.Class.TheVariants.{Plain};

    ghost does = { record {
      class = λ s. Plain;
      opening = λ s. s;
      sends = λ s x. if meets s.from x then (if s.rejects then [] else s.to ∷ s.to ∷ []) else x ∷ [];
      rejects = λ s x. if meets s.from x then (if s.rejects then x ∷ [] else []) else [];
      next = λ s x. s;
      ends = λ s x. false;
      last = λ s. [];
      last_rejects = λ s. [];
    } };

    ghost keeps_kind = { KeepsKind-stateless _ (record { opening = λ s. refl; next = λ s x. refl; ends = λ s x. refl; last = λ s. refl; last_rejects = λ s. refl }) };

    ghost class_law = { λ o. IsPlainNode-stateless _ (record { opening = λ s. refl; next = λ s x. refl; ends = λ s x. refl; last = λ s. refl; last_rejects = λ s. refl }) o };

    fn class(&self) -> Class {
        Class::Plain
    }

    fn copy(&self) -> Result<Doubling, NoMemory> {
        Ok(Doubling {
            from: self.from,
            to: self.to.copy()?,
            rejects: self.rejects,
            gives_up: self.gives_up,
        })
    }

    fn svc_init(&mut self) {}

    fn svc(&mut self, r: Record, out: &mut Sends) -> Result<Next, NoMemory> {
        if !self.from.is_met(&r) {
            out.send(r)?;
        } else if self.gives_up {
            return Err(NoMemory);
        } else if self.rejects {
            out.reject(r)?;
        } else {
            out.send(self.to.copy()?)?;
            out.send(self.to.copy()?)?;
        }
        Ok(Next::GoOn)
    }

    fn eos_notify(&mut self, _out: &mut Sends) -> Result<(), NoMemory> {
        Ok(())
    }

    fn svc_end(&mut self) {}
}
