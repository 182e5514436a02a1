// A node that does nothing, of any class.
use ff_node::{Class, Next, Node, Sends};
use ff_rec::{NoMemory, Record};

/// A node that sends and rejects nothing, of this class.
#[derive(Drop)]
pub struct Silent {
    pub class: Class,
}

impl Node for Silent {
    ghost use Rattle.ff_test_nodes.specs.Silent.{silent, silent_law, silent_kind};

    ghost does = { silent (λ s. s.class) };

    ghost keeps_kind = { silent_kind (λ s. s.class) };

    ghost class_law = { λ o. silent_law (λ s. s.class) o o.class };

    fn class(&self) -> Class {
        self.class
    }

    fn copy(&self) -> Result<Silent, NoMemory> {
        Ok(Silent { class: self.class })
    }

    fn svc_init(&mut self) {}

    fn svc(&mut self, _r: Record, _out: &mut Sends) -> Result<Next, NoMemory> {
        Ok(Next::GoOn)
    }

    fn eos_notify(&mut self, _out: &mut Sends) -> Result<(), NoMemory> {
        Ok(())
    }

    fn svc_end(&mut self) {}
}
