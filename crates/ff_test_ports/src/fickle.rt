// Ports that may find nothing, and no room, at any time.
ghost use Rattle.std.specs.Prelude.{◌≡◌, ◌<◌, true, length};
ghost use Rattle.ff_rec.specs.Streams.{IsOpen};
ghost use Rattle.ff_port.specs.Ends.{at, OthersStay, PutsAt};
ghost use Rattle.ff_test_ports.specs.Fickle.{nothing_at};

use ff_port::{Ports, Put};
use ff_rec::{Msg, Record};

/// Ports at which nothing is known to be there and no room is known: at random a try finds nothing, or no room. So a unit is
/// run as between threads whose order is open. They may be told to want memory, too.
#[derive(Drop)]
pub struct Fickle<P> {
    ports: P,
    // The random number behind the last try.
    seed: u32,
    // For how many puts memory is there.
    memory: u32,
}

impl<P: Ports<Record>> Fickle<P> {
    /// These ports, whose tries go by random numbers from this one on.
    pub fn new(ports: P, seed: u32) -> Fickle<P>
        ensures { result.ports ≡ ports }
    {
        Fickle {
            ports,
            seed,
            memory: u32::MAX,
        }
    }

    /// Memory is there for so many puts; Eos and Abort want none.
    pub fn set_memory(&mut self, puts: u32)
        ensures { self.new.ports ≡ self.old.ports }
    {
        self.memory = puts;
    }

    /// The ports themselves.
    pub fn into_inner(self) -> P
        ensures { result ≡ self.ports }
    {
        let Fickle { ports, .. } = self;
        ports
    }

    // Whether the next try finds nothing: every other time, by a xorshift generator.
    fn refuses(&mut self) -> bool
        ensures { self.new.ports ≡ self.old.ports }
    {
        self.seed ^= self.seed << 13;
        self.seed ^= self.seed >> 17;
        self.seed ^= self.seed << 5;
        self.seed % 2 == 0
    }
}

impl<P: Ports<Record>> Ports<Record> for Fickle<P> {
    ghost use Rattle.std.specs.Prelude.{◌≡◌, ◌<◌, true, length};
    ghost use Rattle.ff_rec.specs.Streams.{IsOpen};
    ghost use Rattle.ff_port.specs.Ends.{at, OthersStay, PutsAt};
    ghost use Rattle.ff_test_ports.specs.Fickle.{nothing_at, length-nothing_at};

    ghost gots = { λ p. P.gots p.ports };

    ghost puts = { λ p. P.puts p.ports };

    ghost knowns = { λ p. nothing_at (P.gots p.ports) };

    ghost rooms = { λ p. nothing_at (P.puts p.ports) };

    ghost waiting = { λ p. P.waiting p.ports };

    ghost grows = { true };

    ghost Link = { P.Link };

    ghost link = { λ p. P.link p.ports };

    fn ins(&self) -> usize {
        self.ports.ins()
    }

    fn outs(&self) -> usize {
        self.ports.outs()
    }

    fn try_take(&mut self, k: usize) -> Option<Msg<Record>> {
        if self.refuses() {
            return None;
        }
        self.ports.try_take(k)
    }

    fn try_put(&mut self, k: usize, m: Msg<Record>) -> Put<Record>
        requires within { k < length (P.puts self.old.ports) }
        requires inner { IsOpen (at (P.puts self.old.ports) k) }
        ensures link { P.link self.new.ports ≡ P.link self.old.ports }
        ensures puts { PutsAt true k (P.puts self.old.ports) (nothing_at (P.puts self.old.ports)) m result
            (P.puts self.new.ports) (nothing_at (P.puts self.new.ports)) }
        ensures others { OthersStay k (nothing_at (P.puts self.old.ports))
            (nothing_at (P.puts self.new.ports)) }
        ensures gots { P.gots self.new.ports ≡ P.gots self.old.ports }
        ensures knowns { nothing_at (P.gots self.new.ports) ≡ nothing_at (P.gots self.old.ports) }
    {
        if self.refuses() {
            return Put::Full(m);
        }
        if self.memory == 0 && !matches!(m, Msg::Eos | Msg::Abort) {
            return Put::NoMemory(m);
        }
        self.memory = self.memory.saturating_sub(1);
        self.ports.try_put(k, m)
    }

    fn flush(&mut self) -> bool {
        self.ports.flush()
    }

    ghost knowns_length = { λ p. length-nothing_at (P.gots p.ports) };

    ghost rooms_length = { λ p. length-nothing_at (P.puts p.ports) };
}
