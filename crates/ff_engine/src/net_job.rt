// A unit in a thread of its own.
ghost use Rattle.std.specs.Prelude.{◌≡◌, [], ◌∷◌, length, map, replicate};
ghost use Rattle.ff_rec.specs.declared.msg.Msg.TheVariants.{Abort};
ghost use Rattle.ff_ring.specs.Ends.{got_of, put_of, room_of, read_ring, written_ring};
ghost use Rattle.ff_engine.specs.Jobs.{IsFresh, IsOpened};
ghost use Rattle.ff_engine.specs.RingSizes.{size_of};

use crate::stepping::run_unit;
use ff_plan::UnitRow;
use ff_port::OwnPorts;
use ff_rec::Record;
use ff_ring::{Pause, RingIn, RingOut};
use ff_spawn::Job;
use ff_unit::{Threaded, Unit};
use std::marker::Model;
use std::sync::Wait;

/// A unit with its ports, which steps on until it has ended. Where it finds nothing to do
/// it tries again after a pause, which the other ends of its rings cut short.
#[derive(Drop)]
pub struct NetJob<U: Unit, R> {
    unit: U,
    // The unit's row of the plan: the ends are those of its edges.
    row: UnitRow,
    ports: OwnPorts<RingIn<Record>, RingOut<Record>, Record>,
    pause: Pause,
    // The right to wait.
    rt: R,
}

impl<U: Unit, R> Model for NetJob<U, R> {
    ghost use Rattle.std.specs.Prelude.{map};
    ghost use Rattle.ff_ring.specs.Ends.{got_of, put_of, room_of, read_ring, written_ring};
    ghost use Rattle.ff_unit.specs.Units.{Ran};
    ghost use Rattle.ff_engine.specs.Jobs.{JobState};
    ghost use Rattle.ff_engine.specs.RingSizes.{size_of};

    ghost Value = { JobState U };

    ghost view = { λ j. record {
      unit = j.unit;
      row = j.row;
      gots = map (λ i. got_of i) j.ports.ins.items;
      puts = map (λ o. put_of o) j.ports.outs.items;
      rooms = map (λ o. room_of o) j.ports.outs.items;
      sizes = map (λ o. size_of o) j.ports.outs.items;
      reads = map (λ i. read_ring i) j.ports.ins.items;
      writes = map (λ o. written_ring o) j.ports.outs.items;
    } };

    ghost invariant = { λ j. Ran U.does j.unit
        (map (λ i. got_of i) j.ports.ins.items) (map (λ o. put_of o) j.ports.outs.items) };
}

impl<U: Unit, R: Drop> NetJob<U, R> {
    /// A job of this unit between these ends, at which nothing was taken or put: those of the edges of its row.
    pub(crate) fn new(
        unit: U,
        row: UnitRow,
        ins: Vec<RingIn<Record>>,
        outs: Vec<RingOut<Record>>,
        pause: Pause,
        rt: R,
    ) -> NetJob<U, R>
        requires opened { IsOpened U.does row unit }
        requires gots { map (λ i. got_of i) ins.items ≡ replicate (length row.ins) [] }
        requires puts { map (λ o. put_of o) outs.items ≡ replicate (length row.outs) [] }
        ensures { result ≡ record {
          unit = unit;
          row = row;
          gots = replicate (length row.ins) [];
          puts = replicate (length row.outs) [];
          rooms = map (λ o. room_of o) outs.items;
          sizes = map (λ o. size_of o) outs.items;
          reads = map (λ i. read_ring i) ins.items;
          writes = map (λ o. written_ring o) outs.items;
        } }
    {
        NetJob {
            unit,
            row,
            ports: OwnPorts::new(ins, outs),
            pause,
            rt,
        }
    }

    /// Ends the unit before its first step: Abort is put on each out.
    pub(crate) fn abort(&mut self)
        requires { IsFresh U.does self.old }
        ensures unit { self.new.unit ≡ U.does.aborted self.old.unit }
        ensures row { self.new.row ≡ self.old.row }
        ensures gots { self.new.gots ≡ self.old.gots }
        ensures puts { self.new.puts ≡ replicate (U.does.outs self.old.unit) (Abort ∷ []) }
        ensures reads { self.new.reads ≡ self.old.reads }
        ensures writes { self.new.writes ≡ self.old.writes }
    {
        self.unit.abort(&mut self.ports);
    }

    /// Takes the job apart: its unit, its row, and its ends.
    pub(crate) fn into_parts(self) -> (U, UnitRow, Vec<RingIn<Record>>, Vec<RingOut<Record>>)
        ensures unit { result.0 ≡ self.unit }
        ensures row { result.1 ≡ self.row }
        ensures gots { map (λ i. got_of i) result.2.items ≡ self.gots }
        ensures puts { map (λ o. put_of o) result.3.items ≡ self.puts }
        ensures reads { map (λ i. read_ring i) result.2.items ≡ self.reads }
        ensures writes { map (λ o. written_ring o) result.3.items ≡ self.writes }
    {
        let NetJob {
            unit,
            row,
            ports,
            ..
        } = self;
        let (ins, outs) = ports.into_ends();
        (unit, row, ins, outs)
    }
}

impl<U: Threaded, R: Wait + Drop> Job for NetJob<U, R> {
    ghost use Rattle.ff_engine.specs.Jobs.{HasWorked, handled};

    ghost done = { HasWorked U.does };

    ghost amount = { λ job. handled job };

    fn run(&mut self) {
        run_unit(&mut self.unit, &mut self.ports, &mut self.pause, &self.rt);
    }

    fn work(&self) -> u64 {
        self.ports.taken()
    }
}
