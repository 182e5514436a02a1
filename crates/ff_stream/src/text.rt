// From what is sent to what a sink takes.
ghost use Rattle.std.specs.Prelude.{◌≡◌, ◌<◌, ◌++◌, [], length, IfErr, OnOk, OnErr};
ghost use Rattle.ff_io.specs.Faults.{count_after};
ghost use Rattle.ff_rec.specs.Lines.{line_of, text};
ghost use Rattle.ff_stream.specs.Texts.{Writes, WritesSome};

use ff_io::{Failed, Sink, write_all};
use ff_node::Sends;
use ff_rec::{NoMemory, Record, print_record};
use std::alloc::Global;
use std::marker::Model;

/// How many bytes of text are held at most before they are written.
const FULL: usize = 65_536;

/// Text that is to be written.
#[derive(Debug, Drop)]
pub struct Text {
    bytes: Vec<u8>,
}

impl Model for Text {
    ghost use Rattle.std.specs.Prelude.{List, ℕ};

    ghost Value = { List ℕ };

    ghost view = { λ t. t.bytes.items };
}

impl Text {
    /// No text.
    pub fn new(alloc: Global) -> Text
        ensures { result ≡ [] }
    {
        Text {
            bytes: Vec::new(alloc),
        }
    }

    /// Adds the line of a record. After a refusal nothing changed.
    #[inline(always)]
    pub fn print(&mut self, r: &Record) -> Result<(), NoMemory>
        ensures ok { OnOk result (self.new ≡ self.old ++ line_of r.now) }
        ensures err { OnErr result (self.new ≡ self.old) }
    {
        print_record(r, &mut self.bytes)
    }

    /// Adds the lines of what was sent, which is taken out.
    #[inline]
    pub fn print_sends(&mut self, out: &mut Sends) -> Result<(), NoMemory>
        ensures text { OnOk result (self.new ≡ self.old ++ text out.old.sends) }
        ensures sends { OnOk result (out.new ≡ record out.old { sends = [] }) }
    {
        print_sends(out, &mut self.bytes)
    }

    /// Writes all of it, and nothing is held then. After `Failed` a part of it was written.
    pub fn write<O: Sink>(&mut self, sink: &mut O) -> Result<(), Failed>
        ensures all { OnOk result (Writes self.old self.new (O.taken sink.old) (O.taken sink.new)) }
        ensures empty { OnOk result (self.new ≡ []) }
        ensures some { OnErr result (WritesSome self.old (O.taken sink.old) (O.taken sink.new)) }
        ensures counts { O.faults sink.new ≡ count_after (O.faults sink.old) result }
    {
        write_all(sink, &self.bytes)?;
        self.bytes.clear();
        Ok(())
    }

    /// Writes all of it where so much is held that it is time to.
    #[inline(always)]
    pub fn write_full<O: Sink>(&mut self, sink: &mut O) -> Result<(), Failed>
        ensures all { OnOk result (Writes self.old self.new (O.taken sink.old) (O.taken sink.new)) }
        ensures little { OnOk result (length self.new < 65536) }
        ensures some { OnErr result (WritesSome self.old (O.taken sink.old) (O.taken sink.new)) }
        ensures counts { O.faults sink.new ≡ count_after (O.faults sink.old) result }
    {
        if self.bytes.len() < FULL {
            return Ok(());
        }
        self.write(sink)
    }
}

// The lines of what was sent, which is taken out.
fn print_sends(out: &mut Sends, into: &mut Vec<u8>) -> Result<(), NoMemory>
    ensures text { OnOk result (into.new.items ≡ into.old.items ++ text out.old.sends) }
    ensures sends { OnOk result (out.new ≡ record out.old { sends = [] }) }
{
    while let Some(r) = out.first() {
        print_record(r, into)?;
        out.drop_first();
    }
    Ok(())
}
