// The two ends of a channel.
use crate::Put;
use ff_rec::Msg;

/// The reading end of a channel.
pub trait Inbox<T> {
    ghost use Rattle.std.specs.Prelude.{◌≡◌, ℕ, List};
    ghost use Rattle.ff_rec.specs.declared.msg.Msg.{Msg};
    ghost use Rattle.ff_port.specs.Channels.{Takes};

    /// What was taken, in its order.
    ghost got: { Self → List (Msg T) };

    /// How many messages are known to be there.
    ghost known: { Self → ℕ };

    /// What the end is paired with. No call changes it.
    ghost Link: { Type 0 };

    ghost link: { Self → Link };

    /// The next message. Nothing is answered only where none is known to be there.
    fn try_take(&mut self) -> Option<Msg<T>>
        ensures link { link self.new ≡ link self.old }
        ensures takes { Takes (got self.old) (known self.old) result (got self.new) (known self.new) };

    /// Tells the thread of the writing end of all that was taken, where it may wait for that: this one is about to wait.
    fn tell(&mut self)
        ensures link { link self.new ≡ link self.old }
        ensures got { got self.new ≡ got self.old }
        ensures known { known self.new ≡ known self.old }
    {}
}

/// The writing end of a channel.
pub trait Outbox<T> {
    ghost use Rattle.std.specs.Prelude.{◌≡◌, ◌↔◌, ℕ, Bool, List, IsTrue};
    ghost use Rattle.ff_rec.specs.Streams.{IsOpen};
    ghost use Rattle.ff_rec.specs.declared.msg.Msg.{Msg};
    ghost use Rattle.ff_port.specs.Channels.{Puts};

    /// What was put, in its order.
    ghost put: { Self → List (Msg T) };

    /// How much room is known.
    ghost room: { Self → ℕ };

    /// How many messages wait on the writer's side to be handed over.
    ghost waiting: { Self → ℕ };

    /// Whether a put takes memory.
    ghost grows: { Bool };

    /// What the end is paired with. No call changes it.
    ghost Link: { Type 0 };

    ghost link: { Self → Link };

    /// Puts a message, or hands it back. Eos and Abort are never refused for want of memory.
    fn try_put(&mut self, m: Msg<T>) -> Put<T>
        requires { IsOpen (put self.old) }
        ensures link { link self.new ≡ link self.old }
        ensures puts { Puts grows (put self.old) (room self.old) m result
            (put self.new) (room self.new) };

    /// Hands over what waits on the writer's side, as far as there is room. It answers whether nothing is left.
    fn flush(&mut self) -> bool
        ensures link { link self.new ≡ link self.old }
        ensures puts { put self.new ≡ put self.old }
        ensures flushed { IsTrue result ↔ (waiting self.new ≡ 0) };
}
