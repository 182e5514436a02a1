// The two ends of a chain in one thread again.
ghost use Rattle.std.specs.Prelude.{◌≡◌, ◌<◌, ◌↔◌, [], ◌++◌, None, length, IsTrue};
ghost use mathlib.Core.List.{IsPrefix};
ghost use Rattle.rtrb.specs.Ring.{sent, known_free, received, known_items};
ghost use Rattle.ff_ring.specs.Ends.{put_of, got_of, held_of, there_of, written_ring, read_ring};
ghost use Rattle.ff_chain.specs.Uses.{put_in, got_in, SameUse, IsKept};
ghost use Rattle.ff_chain.specs.Chains.{put_chain, got_chain, known_chain, written_chain, read_chain};

use crate::reader::Reader;
use crate::reading::Reading;
use crate::writer::Writer;
use crate::writing::Writing;
use ff_ring::settle;

/// Makes the reader know of what was handed over, and hands over what waits at the writer. It
/// answers whether nothing is left inside.
pub(crate) fn settle_ends<T: Drop>(out: &mut Writer<T>, inn: &mut Reader<T>) -> bool
    requires pair { read_chain inn.old ≡ written_chain out.old }
    ensures writer { written_chain out.new ≡ written_chain out.old }
    ensures reader { read_chain inn.new ≡ read_chain inn.old }
    ensures put { put_chain out.new ≡ put_chain out.old }
    ensures got { got_chain inn.new ≡ got_chain inn.old }
    ensures law { IsPrefix (got_chain inn.new) (put_chain out.new) }
    ensures none { IsTrue result ↔ (got_chain inn.new ≡ put_chain out.new) }
    ensures known { IsTrue result ↔ (known_chain inn.new ≡ 0) }
{
    loop {
        see_links(out, inn);
        if !inn.pass_known() {
            return false;
        }
        see_room(out, inn);
        if !out.hand_one() {
            return settle_last(out, inn);
        }
    }
}

// The reader knows of all links that were handed over.
fn see_links<T: Drop>(out: &mut Writer<T>, inn: &mut Reader<T>)
    requires pair { read_chain inn.old ≡ written_chain out.old }
    ensures writer { written_chain out.new ≡ written_chain out.old }
    ensures reader { read_chain inn.new ≡ read_chain inn.old }
    ensures put { put_chain out.new ≡ put_chain out.old }
    ensures got { got_chain inn.new ≡ got_chain inn.old }
    ensures waiting { out.new.waiting ≡ out.old.waiting }
    ensures all { received inn.new.spine ++ known_items inn.new.spine ≡ sent out.new.spine }
{
    inn.spine.slots_beside(&mut out.spine);
}

// The writer knows that the spine has room, once the reader took all links.
fn see_room<T: Drop>(out: &mut Writer<T>, inn: &mut Reader<T>)
    requires pair { read_chain inn.old ≡ written_chain out.old }
    requires none { inn.old.ahead ≡ None }
    requires all { received inn.old.spine ≡ sent out.old.spine }
    ensures writer { written_chain out.new ≡ written_chain out.old }
    ensures reader { read_chain inn.new ≡ read_chain inn.old }
    ensures put { put_chain out.new ≡ put_chain out.old }
    ensures got { got_chain inn.new ≡ got_chain inn.old }
    ensures waiting { out.new.waiting ≡ out.old.waiting }
    ensures none { inn.new.ahead ≡ None }
    ensures all { received inn.new.spine ≡ sent out.new.spine }
    ensures room { 0 < known_free out.new.spine }
{
    out.spine.slots_beside(&mut inn.spine);
}

// Settles the two where the reader reads the segment that the writer writes.
fn settle_last<T: Drop>(out: &mut Writer<T>, inn: &mut Reader<T>) -> bool
    requires pair { read_chain inn.old ≡ written_chain out.old }
    requires none { inn.old.ahead ≡ None }
    requires all { received inn.old.spine ≡ sent out.old.spine }
    requires handed { out.old.waiting.items ≡ [] }
    ensures writer { written_chain out.new ≡ written_chain out.old }
    ensures reader { read_chain inn.new ≡ read_chain inn.old }
    ensures put { put_chain out.new ≡ put_chain out.old }
    ensures got { got_chain inn.new ≡ got_chain inn.old }
    ensures law { IsPrefix (got_chain inn.new) (put_chain out.new) }
    ensures none { IsTrue result ↔ (got_chain inn.new ≡ put_chain out.new) }
    ensures known { IsTrue result ↔ (known_chain inn.new ≡ 0) }
{
    out.cur.flush();
    settle_segment(&mut out.cur, &mut inn.reading)
}

// The two ends of one segment.
fn settle_segment<T>(writing: &mut Writing<T>, reading: &mut Reading<T>) -> bool
    requires pair { read_ring reading.old.inn ≡ written_ring writing.old.out }
    requires base { put_of writing.old.base.value ≡ got_of reading.old.base.value }
    requires none { held_of writing.old.out ≡ [] }
    ensures same { SameUse writing.old writing.new }
    ensures put { put_in writing.new ≡ put_in writing.old }
    ensures kept { IsKept writing.old → IsKept writing.new }
    ensures ring { read_ring reading.new.inn ≡ read_ring reading.old.inn }
    ensures base { got_of reading.new.base.value ≡ got_of reading.old.base.value }
    ensures got { got_in reading.new ≡ got_in reading.old }
    ensures law { got_in reading.new ++ there_of reading.new.inn ≡ put_in writing.new }
    ensures none { IsTrue result ↔ (there_of reading.new.inn ≡ []) }
{
    settle(&mut writing.out, &mut reading.inn)
}
