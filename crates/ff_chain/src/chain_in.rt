// The reading end of a chain, as callers see it.
ghost use Rattle.std.specs.Prelude.{◌≡◌};

use crate::reader::Reader;
use ff_port::Inbox;
use ff_rec::Msg;
use std::marker::Model;

/// The reading end.
#[derive(Drop)]
pub struct ChainIn<T> {
    pub(crate) inside: Reader<T>,
}

impl<T> Model for ChainIn<T> {
    ghost use Rattle.ff_chain.specs.Views.{InView};
    ghost use Rattle.ff_chain.specs.Chains.{got_chain, known_chain, read_chain};

    ghost Value = { InView T };

    ghost view = { λ i. record { got = got_chain i.inside; known = known_chain i.inside; chain = read_chain i.inside } };
}

impl<T: Drop> ChainIn<T> {
    /// Whether the writer is told of each block that comes back.
    pub fn set_eager(&mut self, eager: bool)
        ensures link { self.new.chain ≡ self.old.chain }
        ensures got { self.new.got ≡ self.old.got }
        ensures known { self.new.known ≡ self.old.known }
    {
        self.inside.set_eager(eager);
    }
}

impl<T: Drop> Inbox<T> for ChainIn<T> {
    ghost use Rattle.ff_ring.specs.Names.{RingName};

    ghost got = { λ inn. inn.got };

    ghost known = { λ inn. inn.known };

    ghost Link = { RingName };

    ghost link = { λ inn. inn.chain };

    #[inline(always)]
    fn try_take(&mut self) -> Option<Msg<T>> {
        self.inside.try_take()
    }

    fn tell(&mut self) {
        self.inside.tell();
    }
}
