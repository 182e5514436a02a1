// Two small nodes.
use ff_node::{Class, Next, Node, Sends};
use ff_rec::{NoMemory, Record};

// Sends each record of one field on and rejects the others, and ends behind so many records, or never at 0.
#[derive(Clone, Copy, Debug)]
pub struct Gate {
    most: u64,
    left: u64,
}

impl Gate {
    pub fn open() -> Gate {
        Gate::of(0)
    }

    pub fn of(most: u64) -> Gate {
        Gate { most, left: most }
    }
}

impl Node for Gate {
    ghost use Rattle.std.specs.Prelude.{◌-◌, nat_eq, nat_lt, if◌then◌else◌, length, [], ◌∷◌, refl};
    ghost use Rattle.ff_node.specs.declared.class.Class.TheVariants.{Ordered};

    ghost does = { record {
      class = λ s. Ordered;
      opening = λ s. record s { left = s.most };
      sends = λ s x. if nat_lt 1 (length x) then [] else x ∷ [];
      rejects = λ s x. if nat_lt 1 (length x) then x ∷ [] else [];
      next = λ s x. record s { left = s.left - 1 };
      ends = λ s x. nat_eq s.left 1;
      last = λ s. [];
      last_rejects = λ s. [];
    } };

    ghost keeps_kind = { record { opening_of_opening = λ s. refl; opening_of_next = λ s x. refl; class_of_opening = λ s. refl } };

    ghost class_law = { λ o. tt };

    fn class(&self) -> Class {
        Class::Ordered
    }

    fn copy(&self) -> Result<Gate, NoMemory> {
        Ok(Gate {
            most: self.most,
            left: self.most,
        })
    }

    fn svc_init(&mut self) {
        self.left = self.most;
    }

    fn svc(&mut self, r: Record, out: &mut Sends) -> Result<Next, NoMemory> {
        let ends = self.left == 1;
        self.left = self.left.saturating_sub(1);
        if r.len() > 1 {
            out.reject(r)?;
        } else {
            out.send(r)?;
        }
        Ok(if ends { Next::Eos } else { Next::GoOn })
    }

    fn eos_notify(&mut self, _out: &mut Sends) -> Result<(), NoMemory> {
        Ok(())
    }

    fn svc_end(&mut self) {
        self.left = self.most;
    }
}

// Sends its last record, at the end.
#[derive(Drop)]
pub struct Last {
    held: Option<Record>,
}

impl Last {
    pub fn new() -> Last {
        Last { held: None }
    }
}

impl Node for Last {
    ghost use Rattle.std.specs.Prelude.{false, [], None, Some, refl};
    ghost use Rattle.std.specs.Option.{option_to_list};
    ghost use Rattle.ff_node.specs.declared.class.Class.TheVariants.{Ordered};

    ghost does = { record {
      class = λ s. Ordered;
      opening = λ s. record { held = None };
      sends = λ s x. [];
      rejects = λ s x. [];
      next = λ s x. record { held = Some x };
      ends = λ s x. false;
      last = λ s. option_to_list s.held;
      last_rejects = λ s. [];
    } };

    ghost keeps_kind = { record { opening_of_opening = λ s. refl; opening_of_next = λ s x. refl; class_of_opening = λ s. refl } };

    ghost class_law = { λ o. tt };

    fn class(&self) -> Class {
        Class::Ordered
    }

    fn copy(&self) -> Result<Last, NoMemory> {
        Ok(Last { held: None })
    }

    fn svc_init(&mut self) {
        self.held = None;
    }

    fn svc(&mut self, r: Record, _out: &mut Sends) -> Result<Next, NoMemory> {
        self.held = Some(r);
        Ok(Next::GoOn)
    }

    fn eos_notify(&mut self, out: &mut Sends) -> Result<(), NoMemory> {
        if let Some(r) = self.held.take() {
            out.send(r)?;
        }
        Ok(())
    }

    fn svc_end(&mut self) {
        self.held = None;
    }
}
