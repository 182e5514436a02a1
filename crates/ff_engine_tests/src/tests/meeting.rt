// Nodes that wait for one another.
use crossbeam_utils::atomic::AtomicCell;
use ff_node::{Class, Next, Node, Sends};
use ff_rec::{NoMemory, Record};
use std::hint;
use std::marker::Model;
use std::sync::Arc;

// How often a node looks whether the other is there.
const TURNS: u32 = 10_000_000;

/// What two nodes have begun, and which of them met the other.
#[derive(Drop)]
pub struct Flags {
    pub first_began: AtomicCell<bool>,
    pub second_began: AtomicCell<bool>,
    pub first_met: AtomicCell<bool>,
    pub second_met: AtomicCell<bool>,
}

impl Flags {
    pub fn new() -> Flags {
        Flags {
            first_began: AtomicCell::new(false),
            second_began: AtomicCell::new(false),
            first_met: AtomicCell::new(false),
            second_met: AtomicCell::new(false),
        }
    }
}

// Where a node stands.
#[derive(Clone, Copy, Debug, PartialEq, Eq)]
pub enum Place {
    /// In a pipe, before the second: it waits on record 2 until that has begun record 1.
    First,
    /// Behind the first: it waits on record 1 until that has begun record 2.
    Second,
    /// In a set of copies: the one with record 1 waits until another has begun record 2.
    Worker,
    /// Anywhere: it waits for nobody.
    Passing,
}

/// A node that sends each record on, and waits for another on one of them.
#[derive(Drop)]
pub struct Meets {
    pub place: Place,
    pub flags: Arc<Flags>,
}

// What it does is the same whatever the flags say.
impl Model for Meets {
    ghost use Rattle.ff_engine_tests.specs.declared.tests.meeting.Place.{Place};

    ghost Value = { Place };

    ghost view = { λ m. m.place };
}

impl Meets {
    // Begins a record, and waits where it is to.
    fn begin(&self, number: Option<i64>) {
        let flags = &*self.flags;
        match (self.place, number) {
            (Place::First, Some(2)) => {
                flags.first_began.store(true);
                flags.first_met.store(comes(&flags.second_began));
            }
            (Place::Second, Some(1)) => {
                flags.second_began.store(true);
                flags.second_met.store(comes(&flags.first_began));
            }
            (Place::Worker, Some(1)) => {
                flags.first_began.store(true);
                flags.first_met.store(comes(&flags.second_began));
            }
            (Place::Worker, Some(2)) => flags.second_began.store(true),
            _ => {}
        }
    }
}

// Waits for a flag, and tells whether it came.
fn comes(flag: &AtomicCell<bool>) -> bool {
    for _ in 0..TURNS {
        if flag.load() {
            return true;
        }
        hint::spin_loop();
    }
    false
}

impl Node for Meets {
    ghost use Rattle.std.specs.Prelude.{false, [], ◌∷◌, refl};
    ghost use Rattle.ff_node.specs.declared.class.Class.TheVariants.{Plain};

    ghost does = { record {
      class = λ s. Plain;
      opening = λ s. s;
      sends = λ s x. x ∷ [];
      rejects = λ s x. [];
      next = λ s x. s;
      ends = λ s x. false;
      last = λ s. [];
      last_rejects = λ s. [];
    } };

    ghost keeps_kind = { record { opening_of_opening = λ s. refl; opening_of_next = λ s x. refl; class_of_opening = λ s. refl } };

    ghost class_law = { λ o. record { sends = λ ys x. refl; rejects = λ ys x. refl; ends = λ ys x. refl; last = λ ys. refl; last_rejects = λ ys. refl } };

    fn class(&self) -> Class {
        Class::Plain
    }

    fn copy(&self) -> Result<Meets, NoMemory> {
        Ok(Meets {
            place: self.place,
            flags: Arc::try_clone(&self.flags)?,
        })
    }

    fn svc_init(&mut self) {}

    fn svc(&mut self, r: Record, out: &mut Sends) -> Result<Next, NoMemory> {
        self.begin(r.number(1));
        out.send(r)?;
        Ok(Next::GoOn)
    }

    fn eos_notify(&mut self, _out: &mut Sends) -> Result<(), NoMemory> {
        Ok(())
    }

    fn svc_end(&mut self) {}
}
