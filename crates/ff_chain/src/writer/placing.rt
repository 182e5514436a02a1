// Where the next message goes.
ghost use Rattle.std.specs.Prelude.{◌≡◌, ◌<◌, ◌≤◌, IfOk, OnOk, OnErr};
ghost use Rattle.ff_rec.specs.Streams.{IsOpen, IsOpenMsg};
ghost use Rattle.ff_rec.specs.declared.msg.Msg.{Msg};
ghost use Rattle.ff_ring.specs.Ends.{hands_out};
ghost use Rattle.ff_chain.specs.Uses.{HasPlaceFor};
ghost use Rattle.ff_chain.specs.Chains.{put_chain, written_chain};

use crate::blank::Blank;
use crate::link::Link;
use crate::writer::Writer;
use crate::writing::Writing;
use ff_rec::{Msg, NoMemory};
use std::mem;
use std::sync::Arc;

impl<T: Drop> Writer<T> {
    /// A place for this message, in the segment that is written or in another one.
    #[inline(always)]
    pub(super) fn make_place(&mut self, m: &Msg<T>) -> Result<(), NoMemory>
        requires { IsOpen (put_chain self.old) }
        ensures link { written_chain self.new ≡ written_chain self.old }
        ensures put { put_chain self.new ≡ put_chain self.old }
        ensures refused { OnErr result (IsOpenMsg m.now) }
        ensures place { OnOk result (HasPlaceFor m.now self.new.cur.out) }
    {
        match m {
            Msg::Eos | Msg::Abort => Ok(()),
            _ => self.make_room(),
        }
    }

    // A place for any message.
    #[inline(always)]
    fn make_room(&mut self) -> Result<(), NoMemory>
        requires { IsOpen (put_chain self.old) }
        ensures link { written_chain self.new ≡ written_chain self.old }
        ensures put { put_chain self.new ≡ put_chain self.old }
        ensures place { OnOk result ((m : Msg T) → HasPlaceFor m self.new.cur.out) }
    {
        self.catch_up();
        if self.cur.has_spare() {
            return Ok(());
        }
        self.extend()
    }

    // Goes on to another segment.
    #[inline(never)]
    fn extend(&mut self) -> Result<(), NoMemory>
        requires inner { IsOpen (put_chain self.old) }
        requires few { hands_out self.old.cur.out ≤ 1 }
        ensures link { written_chain self.new ≡ written_chain self.old }
        ensures put { put_chain self.new ≡ put_chain self.old }
        ensures place { OnOk result ((m : Msg T) → HasPlaceFor m self.new.cur.out) }
    {
        self.waiting.reserve(1)?;
        let Blank { out, inn } = self.blank()?;
        let closed = mem::replace(&mut self.cur, Writing::new(out));
        self.waiting.push_back_reserved(Link { closed, next: inn });
        self.hand_over();
        Ok(())
    }

    // An empty segment, eager or not as the chain is.
    fn blank(&mut self) -> Result<Blank<T>, NoMemory>
        ensures link { written_chain self.new ≡ written_chain self.old }
        ensures put { put_chain self.new ≡ put_chain self.old }
        ensures cur { self.new.cur ≡ self.old.cur }
        ensures waiting { self.new.waiting ≡ self.old.waiting }
        ensures free { IfOk result (λ b. 1 < hands_out b.out) }
    {
        let mut blank = self.any_blank()?;
        blank.set_eager(self.eager);
        Ok(blank)
    }

    // An empty segment: one that came back, or a new one.
    fn any_blank(&mut self) -> Result<Blank<T>, NoMemory>
        ensures link { written_chain self.new ≡ written_chain self.old }
        ensures put { put_chain self.new ≡ put_chain self.old }
        ensures cur { self.new.cur ≡ self.old.cur }
        ensures waiting { self.new.waiting ≡ self.old.waiting }
        ensures free { IfOk result (λ b. 1 < hands_out b.out) }
    {
        if let Ok(mut blank) = self.blanks.pop() {
            if blank.out.has_spare() {
                return Ok(blank);
            }
        }
        Blank::new(
            self.alloc,
            self.segment + 1,
            Arc::try_clone(&self.writer)?,
            Arc::try_clone(&self.reader)?,
        )
    }
}
