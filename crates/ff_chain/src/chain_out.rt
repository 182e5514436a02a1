// The writing end of a chain, as callers see it.
ghost use Rattle.std.specs.Prelude.{◌≡◌, ◌↔◌, IsTrue, IsFalse};
ghost use Rattle.ff_rec.specs.Streams.{IsOpen};
ghost use Rattle.ff_port.specs.Channels.{Puts};

use crate::writer::Writer;
use ff_port::{Outbox, Put};
use ff_rec::Msg;
use std::marker::Model;

/// The writing end.
#[derive(Drop)]
pub struct ChainOut<T> {
    pub(crate) inside: Writer<T>,
}

impl<T> Model for ChainOut<T> {
    ghost use Rattle.rtrb.specs.Ring.{known_free};
    ghost use Rattle.ff_chain.specs.Views.{OutView};
    ghost use Rattle.ff_chain.specs.Chains.{put_chain, waiting_chain, written_chain};

    ghost Value = { OutView T };

    ghost view = { λ o. record { put = put_chain o.inside; waits = waiting_chain o.inside; links = known_free o.inside.spine; chain = written_chain o.inside } };
}

impl<T: Drop> ChainOut<T> {
    /// Whether a put hands over what waits as soon as the reader is seen to have taken all else.
    pub fn set_eager(&mut self, eager: bool)
        ensures link { self.new.chain ≡ self.old.chain }
        ensures put { self.new.put ≡ self.old.put }
    {
        self.inside.set_eager(eager);
    }
}

impl<T: Drop> Outbox<T> for ChainOut<T> {
    ghost use Rattle.std.specs.Prelude.{true};
    ghost use Rattle.ff_ring.specs.Names.{RingName};

    ghost put = { λ out. out.put };

    ghost room = { λ out. 1 };

    ghost waiting = { λ out. out.waits };

    ghost grows = { true };

    ghost Link = { RingName };

    ghost link = { λ out. out.chain };

    #[inline(always)]
    fn try_put(&mut self, m: Msg<T>) -> Put<T>
        requires { IsOpen self.old.put }
        ensures link { self.new.chain ≡ self.old.chain }
        ensures puts { Puts true self.old.put 1 m result self.new.put 1 }
    {
        self.inside.try_put(m)
    }

    fn flush(&mut self) -> bool
        ensures link { self.new.chain ≡ self.old.chain }
        ensures puts { self.new.put ≡ self.old.put }
        ensures flushed { IsTrue result ↔ (self.new.waits ≡ 0) }
        ensures no_room { IsFalse result → self.new.links ≡ 0 }
    {
        self.inside.flush()
    }
}
