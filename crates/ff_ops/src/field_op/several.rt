// Rows that send several records for one.
ghost use Rattle.std.specs.Prelude.{◌≡◌, [], ◌∷◌, map, replicate, IfOk, OnOk};
ghost use Rattle.ff_rec.specs.Lines.{IsPlain};
ghost use Rattle.ff_node.specs.Sends.{add};
ghost use Rattle.ff_ops.specs.Answered.{answered};
ghost use Rattle.ff_ops.specs.Fates.{settled};
ghost use Rattle.ff_ops.specs.FieldOps.{field_answer, words};
ghost use Rattle.ff_ops.specs.declared.field_op.FieldOp.TheVariants.{Words, Dup};

use crate::Fate;
use ff_node::Sends;
use ff_rec::{Kept, NoMemory, Record, split_near};
use std::alloc::Global;

/// `words F`
pub(crate) fn split_words(f: usize, r: &Record, out: &mut Sends) -> Result<Fate, NoMemory>
    ensures { IfOk result (λ fate. settled fate out.new r.now
        ≡ answered out.old (field_answer (Words f) r.now) r.now) }
{
    let Some(bytes) = r.field(f) else {
        return Ok(Fate::Rejected);
    };
    send_words(r.allocator(), bytes, out)?;
    Ok(Fate::Dropped)
}

// Sends a record for each longest run of bytes other than space.
fn send_words(alloc: Global, bytes: &[u8], out: &mut Sends) -> Result<(), NoMemory>
    requires { IsPlain bytes.now }
    ensures { OnOk result (out.new ≡ add out.old (map (λ word. word ∷ []) (words bytes.now)) []) }
{
    let mut rest = Some(bytes);
    while let Some(bytes) = rest {
        let (word, behind) = split_near(bytes, b' ');
        if !word.is_empty() {
            out.send(Record::of_plain(alloc, word)?)?;
        }
        rest = behind;
    }
    Ok(())
}

/// `dup N`: the record itself goes last.
pub(crate) fn send_copies_before(n: usize, r: &Record, out: &mut Sends) -> Result<Fate, NoMemory>
    ensures { IfOk result (λ fate. settled fate out.new r.now
        ≡ answered out.old (field_answer (Dup n) r.now) r.now) }
{
    if n == 0 {
        return Ok(Fate::Dropped);
    }
    send_copies(n - 1, r, out)?;
    Ok(Fate::Sent)
}

// Sends copies of a record.
fn send_copies(n: usize, r: &Record, out: &mut Sends) -> Result<(), NoMemory>
    ensures { OnOk result (out.new ≡ add out.old (replicate n r.now) []) }
{
    for _ in 0..n {
        out.send(r.copy()?)?;
    }
    Ok(())
}
