// A record that may go to any place.
ghost use Rattle.std.specs.Prelude.{◌≡◌, ◌<◌, ℕ, length};
ghost use Rattle.ff_rec.specs.Streams.{IsOpen, at};
ghost use Rattle.ff_unit.specs.DealParts.{Offers};

use ff_port::{Ports, Put};
use ff_rec::{Msg, Record};

/// What became of a record that was offered to all places.
#[derive(Drop)]
pub enum Offer {
    /// It was put at this place.
    Done(u32),
    /// No place had room. The record comes back.
    Full(Msg<Record>),
    NoMemory,
}

/// Tries each of the first outs in turn, and puts the record at the first that has room.
pub fn put_anywhere<P: Ports<Record>>(ports: &mut P, places: u32, r: Record) -> Offer
    requires open { (w : ℕ) → w < places → IsOpen (at (P.puts ports.old) w) }
    requires there { (w : ℕ) → w < places → w < length (P.puts ports.old) }
    ensures offers { Offers P.grows places r (P.puts ports.old) (P.rooms ports.old) result
        (P.puts ports.new) (P.rooms ports.new) }
    ensures gots { P.gots ports.new ≡ P.gots ports.old }
    ensures link { P.link ports.new ≡ P.link ports.old }
{
    let mut m = Msg::Item(r);
    for w in 0..places {
        match ports.try_put(w as usize, m) {
            Put::Done => return Offer::Done(w),
            Put::Full(back) => m = back,
            Put::NoMemory(_) => return Offer::NoMemory,
        }
    }
    Offer::Full(m)
}
