// Where bytes come from and where they go.
ghost use Rattle.std.specs.Prelude.{◌≡◌, ◌<◌, ◌≤◌, ℕ, Bool, List, Option, length, IfOk, OnOk};
ghost use Rattle.std.specs.Io.KnownBytes.{Appends, ReadConsumes, WriteAppends};
ghost use Rattle.ff_io.specs.Bytes.{AppendsPrefix, is_end};
ghost use Rattle.ff_io.specs.Faults.{HasCause, count_after};

/// The device failed. The count of its faults tells that it did.
#[derive(Clone, Copy, Debug, PartialEq, Eq)]
pub struct Failed;

/// A stream of bytes that is read in pieces.
pub trait Source {
    /// The bytes that are left, where the source tells them.
    ghost left: { Self → Option (List ℕ) };

    /// Whether the last read answered the end of input. Before the first read it is false.
    ghost ended: { Self → Bool };

    /// How often the source failed, as far as a count of 64 bits tells.
    ghost faults: { Self → ℕ };

    /// Puts the next bytes, at least one, at the front of `buf` and answers their number, or 0 at the end of input.
    /// After `Failed` no byte is lost.
    fn read(&mut self, buf: &mut [u8]) -> Result<usize, Failed>
        requires { 0 < length buf.old }
        ensures within { IfOk result (λ n. n ≤ length buf.new) }
        ensures bytes { ReadConsumes (left self.old) (left self.new) result buf.new }
        ensures ended { ended self.new ≡ is_end result }
        ensures cause { HasCause (faults self.old) (faults self.new) result }
        ensures counts { faults self.new ≡ count_after (faults self.old) result };

    /// Whether the next read may wait for long, so that what is held is to be shown before it. No promise rests on the
    /// answer. A source that can't tell may wait.
    fn may_wait(&self) -> bool {
        true
    }
}

/// A stream of bytes that is written in pieces.
pub trait Sink {
    /// The bytes that it took, where the sink tells them.
    ghost taken: { Self → Option (List ℕ) };

    /// How often the sink failed, as far as a count of 64 bits tells.
    ghost faults: { Self → ℕ };

    /// Takes bytes from the front of `piece`, at least one, and answers their number. After `Failed` none was taken.
    fn write(&mut self, piece: &[u8]) -> Result<usize, Failed>
        requires { 0 < length piece.now }
        ensures some { IfOk result (λ n. 0 < n) }
        ensures within { IfOk result (λ n. n ≤ length piece.now) }
        ensures bytes { WriteAppends (taken self.old) (taken self.new) result piece.now }
        ensures cause { HasCause (faults self.old) (faults self.new) result }
        ensures counts { faults self.new ≡ count_after (faults self.old) result };
}

/// Writes all bytes, in as many calls as the sink wants. After `Failed` it took a prefix of them.
#[tactic(auto, using(crate::proofs::Fronts::front_steps))]
pub fn write_all<K: Sink>(sink: &mut K, bytes: &[u8]) -> Result<(), Failed>
    ensures all { OnOk result (Appends (K.taken sink.old) (K.taken sink.new) bytes.now) }
    ensures prefix { AppendsPrefix (K.taken sink.old) (K.taken sink.new) bytes.now }
    ensures cause { HasCause (K.faults sink.old) (K.faults sink.new) result }
    ensures counts { K.faults sink.new ≡ count_after (K.faults sink.old) result }
{
    let mut rest = bytes;
    while !rest.is_empty() {
        let taken = sink.write(rest)?;
        rest = &rest[taken..];
    }
    Ok(())
}
