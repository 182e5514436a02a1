// The text of records that are there at once.
ghost use Rattle.std.specs.Prelude.{IfErr, OnOk, OnErr, ◌≡◌, []};
ghost use Rattle.ff_rec.specs.Lines.{text};
ghost use Rattle.ff_stream.specs.Texts.{Writes, WritesSome};
ghost use Rattle.ff_stream.specs.Works.{halt_count};

use crate::{Halt, Text};
use ff_io::Sink;
use ff_rec::Records;
use std::alloc::Global;

/// Writes the text of these records. After a refusal a part of it was written.
pub fn write_records<O: Sink>(alloc: Global, mut records: Records, sink: &mut O) -> Result<(), Halt>
    ensures all { OnOk result (Writes (text records) [] (O.taken sink.old) (O.taken sink.new)) }
    ensures some { OnErr result (WritesSome (text records) (O.taken sink.old) (O.taken sink.new)) }
    ensures counts { O.faults sink.new ≡ halt_count (O.faults sink.old) result }
{
    let mut held = Text::new(alloc);
    while let Some(r) = records.take_first() {
        held.print(&r)?;
        held.write_full(sink)?;
    }
    Ok(held.write(sink)?)
}
