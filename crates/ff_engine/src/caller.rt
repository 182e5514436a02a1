// The calling thread's ends of a line of rings.
ghost use Rattle.std.specs.Prelude.{◌≡◌, ◌⊎◌, [], true, None, Some};
ghost use Rattle.ff_port.specs.declared.answers.End.TheVariants.{Eos};
ghost use Rattle.ff_ring.specs.Ends.{put_of, got_of, room_of, waiting_of, read_ring, written_ring};
ghost use Rattle.ff_ring.specs.Pauses.{hands_next};
ghost use Rattle.ff_engine.specs.Callers.{EndsWithEos};

mod feeding;
mod showing;
mod watching;

use ff_port::{End, Inbox, Outbox};
use ff_rec::{Msg, Record};
use ff_ring::{Bell, Pause, RingIn, RingOut};
use ff_stream::Text;
use std::alloc::Global;
use std::sync::{Arc, Wait};

/// The ends that the calling thread has: it feeds the first ring, and prints the records that come over the last one.
#[derive(Drop)]
pub(crate) struct Caller {
    first: RingOut<Record>,
    last: RingIn<Record>,
    pause: Pause,
    // The bells of the units' threads.
    bells: Vec<Arc<Bell, Global>>,
    // What came and isn't written yet.
    text: Text,
    // Whether all of it is held until the units have ended: only then is it known whether it is to be written.
    holds: bool,
    // How the stream ended, once its end came. Nothing is taken then.
    end: Option<End>,
    ghost closes: { end ≡ Some Eos → EndsWithEos (got_of last) },
}

impl Caller {
    ghost use Rattle.ff_engine.specs.Callers.{Receives};
    ghost use Rattle.ff_engine.specs.Seen.{caller_of};

    /// The ends of a line at which nothing happened.
    pub(crate) fn new(
        alloc: Global,
        first: RingOut<Record>,
        last: RingIn<Record>,
        pause: Pause,
        bells: Vec<Arc<Bell, Global>>,
        holds: bool,
    ) -> Caller
        ensures first { result.first ≡ first }
        ensures seen { caller_of result ≡ record {
          put = put_of first;
          got = got_of last;
          text = [];
          holds = holds;
          end = None;
          writes = written_ring first;
          reads = read_ring last;
        } }
    {
        Caller {
            first,
            last,
            pause,
            bells,
            text: Text::new(alloc),
            holds,
            end: None,
        }
    }

    /// How the stream ended, once its end came.
    pub(crate) fn end(&self) -> Option<End>
        ensures end { result ≡ (caller_of self.now).end }
        ensures eos { result ≡ Some Eos → EndsWithEos (caller_of self.now).got }
    {
        self.end
    }

    /// Whether the stream was cut off: an Abort came.
    #[inline(always)]
    pub(crate) fn is_cut(&self) -> bool {
        self.end == Some(End::Abort)
    }

    /// The two ends, and the text that isn't written yet.
    pub(crate) fn into_parts(self) -> (RingOut<Record>, RingIn<Record>, Text)
        ensures put { put_of result.0 ≡ (caller_of self).put }
        ensures got { got_of result.1 ≡ (caller_of self).got }
        ensures text { result.2 ≡ (caller_of self).text }
        ensures writes { written_ring result.0 ≡ (caller_of self).writes }
        ensures reads { read_ring result.1 ≡ (caller_of self).reads }
    {
        let Caller {
            first,
            last,
            text,
            ..
        } = self;
        (first, last, text)
    }

    /// Takes a message. None comes behind the end.
    #[inline(always)]
    pub(crate) fn take(&mut self) -> Option<Msg<Record>>
        ensures { Receives (caller_of self.old) result (caller_of self.new) }
    {
        if self.end.is_some() {
            return None;
        }
        let m = self.last.try_take()?;
        match &m {
            Msg::Eos => self.end = Some(End::Eos),
            Msg::Abort => self.end = Some(End::Abort),
            Msg::Item(_) | Msg::Mark | Msg::Pick(_) => {}
        }
        Some(m)
    }

    /// Waits for the other ends. Before it parks it hands over what waits, and tells of what it took: the units wait for that.
    pub(crate) fn rest<R: Wait>(&mut self, rt: &R)
        ensures same { caller_of self.new ≡ caller_of self.old }
        ensures lies { hands_next self.old.pause ≡ true
            → (waiting_of self.new.first ≡ 0) ⊎ (room_of self.new.first ≡ 0) }
    {
        if self.pause.rest(rt) {
            self.first.flush();
            self.last.tell();
        }
    }
}
