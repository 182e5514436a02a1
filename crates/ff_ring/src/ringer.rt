// How the thread at a ring's other end is told of what was handed over.
ghost use Rattle.std.specs.Prelude.{◌≡◌};
ghost use Rattle.ff_ring.specs.Ringers.{untold_of, Notes};

use crate::Bell;
use std::alloc::Global;
use std::sync::Arc;

/// What a thread is told of.
#[derive(Clone, Copy)]
pub(crate) enum News {
    /// There is something to take.
    Bundles,
    /// There is room, which is told only to a thread that found none.
    Room,
}

/// Rings the bell of the thread at the other end: for each hand-over, or for several at once. To wake a thread takes
/// longer than to fill a bundle, and one that is woken for each bundle has slept again before the next one.
#[derive(Drop)]
pub(crate) struct Ringer {
    bell: Arc<Bell, Global>,
    news: News,
    // How often something was handed over since the bell rang.
    untold: usize,
}

impl Ringer {
    /// The way to a bell of which nothing was handed over yet.
    pub(crate) fn new(bell: Arc<Bell, Global>, news: News) -> Ringer
        ensures { untold_of result ≡ 0 }
    {
        Ringer {
            bell,
            news,
            untold: 0,
        }
    }

    /// Something was handed over. The thread is told at once where that is asked for, and else once it was done so often.
    pub(crate) fn note(&mut self, eager: bool, much: usize)
        ensures { Notes eager much self.old self.new }
    {
        if eager || self.untold >= much.saturating_sub(1) {
            self.ring();
        } else {
            self.untold += 1;
        }
    }

    /// Tells the thread of all that it wasn't told of.
    pub(crate) fn tell(&mut self)
        ensures { untold_of self.new ≡ 0 }
    {
        if self.untold > 0 {
            self.ring();
        }
    }

    fn ring(&mut self)
        ensures { untold_of self.new ≡ 0 }
    {
        match self.news {
            News::Bundles => self.bell.ring(),
            News::Room => self.bell.ring_for_room(),
        }
        self.untold = 0;
    }
}
