// A node that sends some records on and rejects the others.
use ff_node::{Class, Next, Node, Sends};
use ff_rec::{NoMemory, Record};

/// A node that sends each record of one field on and rejects the others.
#[derive(Clone, Copy, Debug)]
pub struct Gate;

impl Node for Gate {
    ghost use Rattle.std.specs.Prelude.{nat_lt, false, if◌then◌else◌, length, [], ◌∷◌, refl};
    ghost use Rattle.ff_node.specs.declared.class.Class.TheVariants.{Plain};

    ghost does = { record {
      class = λ s. Plain;
      opening = λ s. s;
      sends = λ s x. if nat_lt 1 (length x) then [] else x ∷ [];
      rejects = λ s x. if nat_lt 1 (length x) then x ∷ [] else [];
      next = λ s x. s;
      ends = λ s x. false;
      last = λ s. [];
      last_rejects = λ s. [];
    } };

    ghost keeps_kind = { record { opening_of_opening = λ s. refl; opening_of_next = λ s x. refl; class_of_opening = λ s. refl } };

    ghost class_law = { λ o. record { sends = λ ys x. refl; rejects = λ ys x. refl; ends = λ ys x. refl; last = λ ys. refl; last_rejects = λ ys. refl } };

    fn class(&self) -> Class {
        Class::Plain
    }

    fn copy(&self) -> Result<Gate, NoMemory> {
        Ok(Gate)
    }

    fn svc_init(&mut self) {}

    fn svc(&mut self, r: Record, out: &mut Sends) -> Result<Next, NoMemory> {
        if r.len() > 1 {
            out.reject(r)?;
        } else {
            out.send(r)?;
        }
        Ok(Next::GoOn)
    }

    fn eos_notify(&mut self, _out: &mut Sends) -> Result<(), NoMemory> {
        Ok(())
    }

    fn svc_end(&mut self) {}
}
