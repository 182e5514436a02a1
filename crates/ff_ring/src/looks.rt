// How a thread looks on that has spun as long as it may, before it lies down.
ghost use Rattle.std.specs.Prelude.{◌≡◌};
ghost use Rattle.ff_ring.specs.Looking.{fresh_looks, looked, renewed_looks};

use std::marker::Model;

// How many waits go by without at most, behind one in which to look on found nothing.
const LONGEST_GAP: u32 = 63;

/// How often a thread still tries behind its longest spins, with as many between two tries. Where
/// that found nothing it is left out in the next wait, and where it found nothing again in the next
/// 3, 7, .. 63. So a thread that waits for long sleeps soon, and one for which something comes at
/// once again finds that out.
#[derive(Drop)]
pub(crate) struct Looks {
    // How often in one wait at most, and how often it still may in this one.
    most: u32,
    left: u32,
    // How many waits go by without behind one in which it found nothing, and how many of these are
    // to come.
    gap: u32,
    without: u32,
}

impl Model for Looks {
    ghost use Rattle.std.specs.Prelude.{◌≤◌};
    ghost use Rattle.ff_ring.specs.Looking.{LooksState};

    ghost Value = { LooksState };

    ghost view = { λ l. record { most = l.most; left = l.left; gap = l.gap; without = l.without } };

    ghost invariant = { λ l. l.gap ≤ 63 };
}

impl Looks {
    ghost use Rattle.std.specs.Prelude.{◌<◌, IsTrue, ◌↔◌};

    /// So often at most. Nothing was waited for yet.
    pub(crate) fn new(most: u32) -> Looks
        ensures { result ≡ fresh_looks most }
    {
        Looks {
            most,
            left: most,
            gap: 0,
            without: 0,
        }
    }

    /// Whether to look once more, which is counted.
    pub(crate) fn look(&mut self) -> bool
        ensures answer { IsTrue result ↔ (0 < self.old.left) }
        ensures counted { self.new ≡ looked self.old }
    {
        let more = self.left > 0;
        self.left = self.left.saturating_sub(1);
        more
    }

    /// Something was done, behind a wait in which the thread spun as long as it may.
    pub(crate) fn renew(&mut self)
        ensures { self.new ≡ renewed_looks self.old }
    {
        if self.without > 0 {
            self.without -= 1;
        } else if self.left > 0 {
            self.gap = 0;
        } else {
            self.gap = (2 * self.gap + 1).min(LONGEST_GAP);
            self.without = self.gap;
        }
        self.left = if self.without == 0 { self.most } else { 0 };
    }
}
