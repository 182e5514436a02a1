// A Fold: it sends one record at the end, whatever the order of the records was.
use ff_node::{Class, Next, Node, Sends};
use ff_rec::{NoMemory, Record, print_number};
use std::alloc::Global;
use std::marker::Model;

/// A node that sends at the end the number of fields of the widest record, and 0 where there was none.
#[derive(Debug, Drop)]
pub struct Widest {
    most: usize,
    alloc: Global,
}

impl Model for Widest {
    ghost use Rattle.std.specs.Prelude.{ℕ};

    ghost Value = { ℕ };

    ghost view = { λ w. w.most };
}

impl Widest {
    ghost use Rattle.std.specs.Prelude.{◌≡◌};

    /// No record was there yet.
    pub fn new(alloc: Global) -> Widest
        ensures { result ≡ 0 }
    {
        Widest { most: 0, alloc }
    }
}

impl Node for Widest {
    ghost use Rattle.own_node.specs.Widest.{widest_node};
    ghost use Rattle.own_node.specs.WidestLaws.{widest_keeps_kind, widest_class_law};

    ghost does = { widest_node };

    ghost keeps_kind = { widest_keeps_kind };

    ghost class_law = { widest_class_law };

    fn class(&self) -> Class {
        Class::Fold
    }

    fn copy(&self) -> Result<Widest, NoMemory> {
        Ok(Widest::new(self.alloc))
    }

    fn svc_init(&mut self) {
        self.most = 0;
    }

    fn svc(&mut self, r: Record, _out: &mut Sends) -> Result<Next, NoMemory> {
        self.most = self.most.max(r.len());
        Ok(Next::GoOn)
    }

    fn eos_notify(&mut self, out: &mut Sends) -> Result<(), NoMemory> {
        let field = print_number(self.alloc, self.most as i128)?;
        out.send(Record::one(self.alloc, &field)?)?;
        Ok(())
    }

    fn svc_end(&mut self) {
        self.most = 0;
    }
}
