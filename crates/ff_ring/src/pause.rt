// How a thread waits that found nothing to do.
ghost use Rattle.std.specs.Prelude.{◌≤◌};

use crate::looks::Looks;
use crate::{Bell, Spins};
use std::alloc::Global;
use std::hint;
use std::sync::{Arc, Wait};
use std::time::Duration;

// How long it naps, in microseconds: some ten times as long as a sleep and a wake take.
const NAP: u64 = 200;

// How often it naps before it hands over what it has gathered.
const MOST_NAPS: u32 = 4;

// How long a thread is parked at first, in milliseconds, and at most. Bells wake it; the time is a safety net.
const FIRST_PARK: u64 = 2;

const LONGEST_PARK: u64 = 50;

// How long it dozes at first, in microseconds, and at most. What it waits for may ring no bell.
const FIRST_DOZE: u64 = 100;

const LONGEST_DOZE: u64 = 2000;

/// The pauses of a thread between its tries, while it finds nothing to do: 1, 2, 4, .. spins, which cost no more
/// than a message's way; where it was made so, the longest of them some times again; and then parks of 2, 4, .. 50 milliseconds,
/// which the other ends of its rings cut short. Before each park it lies down and tries once more, so that no bell is missed. One that
/// naps sleeps for a moment in the place of a park, a few times between two handings over, and keeps meanwhile what it has gathered.
/// It never yields its time slice, since a busy machine gives the whole slice away.
#[derive(Drop)]
pub struct Pause {
    bell: Arc<Bell, Global>,
    // How many spins the longest has, and the next one.
    most: u32,
    spins: u32,
    // How it looks on behind these.
    looks: Looks,
    // Whether it lay down since something was done and since it last slept.
    lies: bool,
    // Whether it naps, how often it still may before it hands over (not at all once it has, until something is done), and whether
    // it has since something was done.
    naps: bool,
    naps_left: u32,
    napped: bool,
    // How long the next park may last, in milliseconds.
    millis: u64,
    // How long the next doze may last, in microseconds.
    micros: u64,
    ghost few: { most ≤ 1024 },
    ghost few_spins: { spins ≤ 2048 },
    ghost short: { millis ≤ 50 },
    ghost shorter: { micros ≤ 2000 },
}

impl Pause {
    ghost use Rattle.std.specs.Prelude.{◌≡◌, ◌*◌, ◌-◌, ◌<◌, min, not, true, false, if◌then◌else◌};
    ghost use Rattle.ff_ring.specs.SpinCounts.{most_spins, most_looks};
    ghost use Rattle.ff_ring.specs.Looking.{fresh_looks};
    ghost use Rattle.ff_ring.specs.Pauses.{IsFresh, most_of, spins_of, looks_of, looks_behind, looks_renewed, lies_down, naps_of, naps_left_of, has_napped, millis_of, micros_of};
    ghost use Rattle.ff_ring.specs.Pauses.{spins_next, hands_next, parks_next, sleeps_next, spins_behind, lies_behind, naps_behind, napped_behind, naps_renewed};

    /// The pauses of the thread with this bell. The other ends of its rings are given it too.
    pub fn new(bell: Arc<Bell, Global>, spins: Spins, naps: bool) -> Pause
        ensures fresh { IsFresh result }
        ensures most { most_of result ≡ most_spins spins }
        ensures looks { looks_of result ≡ fresh_looks (most_looks spins) }
        ensures naps { naps_of result ≡ naps }
        ensures left { naps_left_of result ≡ 0 }
    {
        Pause {
            bell,
            most: spins.most(),
            spins: 1,
            looks: Looks::new(spins.looks()),
            lies: false,
            naps,
            naps_left: 0,
            napped: false,
            millis: FIRST_PARK,
            micros: FIRST_DOZE,
        }
    }

    /// Whether it naps: where it finds nothing, what it has gathered is to be kept until `rest` answers so.
    pub fn naps(&self) -> bool
        ensures { result ≡ naps_of self.now }
    {
        self.naps
    }

    /// Something was done: the next pause is short again. One that has handed over what it had may nap again.
    pub fn reset(&mut self)
        ensures fresh { IsFresh self.new }
        ensures naps { naps_of self.new ≡ naps_of self.old }
        ensures left { naps_left_of self.new ≡ naps_renewed self.old }
        ensures most { most_of self.new ≡ most_of self.old }
        ensures looks { looks_of self.new ≡ looks_renewed self.old }
    {
        if self.lies {
            self.bell.works();
        }
        if self.spins > self.most {
            self.looks.renew();
        }
        self.spins = 1;
        self.lies = false;
        self.napped = false;
        if self.naps && self.naps_left == 0 {
            self.naps_left = MOST_NAPS;
        }
        self.millis = FIRST_PARK;
        self.micros = FIRST_DOZE;
    }

    /// The thread makes no other try: it has ended, and counts as one that rests.
    pub fn end(&self) {
        self.bell.ends();
    }

    /// A pause before the next try. Where it answers so, hand over what waits before that try: others wait for it. The thread
    /// lay down, and the pause behind that try is a park; or it has napped for the last time. Where nothing came behind a nap, no
    /// other follows.
    pub fn rest<R: Wait>(&mut self, rt: &R) -> bool
        ensures answer { result ≡ hands_next self.old }
        ensures most { most_of self.new ≡ most_of self.old }
        ensures spins { spins_of self.new ≡ spins_behind self.old }
        ensures looks { looks_of self.new ≡ looks_behind self.old }
        ensures lies { lies_down self.new ≡ lies_behind self.old }
        ensures naps { naps_of self.new ≡ naps_of self.old }
        ensures left { naps_left_of self.new ≡ naps_behind self.old }
        ensures napped { has_napped self.new ≡ napped_behind self.old }
        ensures millis { millis_of self.new
            ≡ (if parks_next self.old then min 50 (2 * millis_of self.old) else millis_of self.old) }
        ensures micros { micros_of self.new ≡ micros_of self.old }
    {
        if self.spin() {
            return false;
        }
        if self.lie_down() {
            if self.napped {
                self.naps_left = 0;
            }
            return self.naps_left == 0;
        }
        if self.naps_left > 0 {
            self.nap(rt);
            return self.naps_left == 0;
        }
        self.park(rt);
        false
    }

    /// A pause as where no bell need ring, with sleeps of 100, 200, .. 2,000 microseconds at most.
    pub fn watch<R: Wait>(&mut self, rt: &R)
        ensures most { most_of self.new ≡ most_of self.old }
        ensures spins { spins_of self.new ≡ spins_behind self.old }
        ensures looks { looks_of self.new ≡ looks_behind self.old }
        ensures lies { lies_down self.new ≡ lies_behind self.old }
        ensures millis { millis_of self.new ≡ millis_of self.old }
        ensures micros { micros_of self.new
            ≡ (if sleeps_next self.old then min 2000 (2 * micros_of self.old) else micros_of self.old) }
        ensures naps { naps_of self.new ≡ naps_of self.old }
        ensures left { naps_left_of self.new ≡ naps_left_of self.old }
        ensures napped { has_napped self.new ≡ has_napped self.old }
    {
        if self.spin() || self.lie_down() {
            return;
        }
        self.doze(rt);
    }

    // Spins, twice as long as the time before, or as long where it looks on, and answers whether it did.
    fn spin(&mut self) -> bool
        ensures answer { result ≡ spins_next self.old }
        ensures most { most_of self.new ≡ most_of self.old }
        ensures spins { spins_of self.new ≡ spins_behind self.old }
        ensures looks { looks_of self.new ≡ looks_behind self.old }
        ensures lies { lies_down self.new ≡ lies_down self.old }
        ensures millis { millis_of self.new ≡ millis_of self.old }
        ensures micros { micros_of self.new ≡ micros_of self.old }
        ensures naps { naps_of self.new ≡ naps_of self.old }
        ensures left { naps_left_of self.new ≡ naps_left_of self.old }
        ensures napped { has_napped self.new ≡ has_napped self.old }
    {
        if self.spins <= self.most {
            spin_for(self.spins);
            self.spins *= 2;
            return true;
        }
        if !self.looks.look() {
            return false;
        }
        spin_for(self.most);
        true
    }

    // Lies down, and answers whether it did.
    fn lie_down(&mut self) -> bool
        ensures answer { result ≡ not (lies_down self.old) }
        ensures most { most_of self.new ≡ most_of self.old }
        ensures spins { spins_of self.new ≡ spins_of self.old }
        ensures looks { looks_of self.new ≡ looks_of self.old }
        ensures lies { lies_down self.new ≡ true }
        ensures millis { millis_of self.new ≡ millis_of self.old }
        ensures micros { micros_of self.new ≡ micros_of self.old }
        ensures naps { naps_of self.new ≡ naps_of self.old }
        ensures left { naps_left_of self.new ≡ naps_left_of self.old }
        ensures napped { has_napped self.new ≡ has_napped self.old }
    {
        if self.lies {
            return false;
        }
        self.bell.tries();
        self.lies = true;
        true
    }

    // Parks until the bell rings or the time is over. The next park may last longer.
    fn park<R: Wait>(&mut self, rt: &R)
        ensures most { most_of self.new ≡ most_of self.old }
        ensures spins { spins_of self.new ≡ spins_of self.old }
        ensures looks { looks_of self.new ≡ looks_of self.old }
        ensures lies { lies_down self.new ≡ false }
        ensures millis { millis_of self.new ≡ min 50 (2 * millis_of self.old) }
        ensures micros { micros_of self.new ≡ micros_of self.old }
        ensures naps { naps_of self.new ≡ naps_of self.old }
        ensures left { naps_left_of self.new ≡ naps_left_of self.old }
        ensures napped { has_napped self.new ≡ has_napped self.old }
    {
        self.bell.sleep(rt, Duration::from_millis(self.millis));
        self.lies = false;
        self.millis = (2 * self.millis).min(LONGEST_PARK);
    }

    // Sleeps for a moment, which a bell cuts short. It doesn't rest meanwhile: it may have something to hand over.
    fn nap<R: Wait>(&mut self, rt: &R)
        requires { 0 < naps_left_of self.old }
        ensures most { most_of self.new ≡ most_of self.old }
        ensures spins { spins_of self.new ≡ spins_of self.old }
        ensures looks { looks_of self.new ≡ looks_of self.old }
        ensures lies { lies_down self.new ≡ false }
        ensures naps { naps_of self.new ≡ naps_of self.old }
        ensures left { naps_left_of self.new ≡ naps_left_of self.old - 1 }
        ensures napped { has_napped self.new ≡ true }
        ensures millis { millis_of self.new ≡ millis_of self.old }
        ensures micros { micros_of self.new ≡ micros_of self.old }
    {
        self.bell.nap(rt, Duration::from_micros(NAP));
        self.lies = false;
        self.naps_left -= 1;
        self.napped = true;
    }

    // Parks as where no bell need ring.
    fn doze<R: Wait>(&mut self, rt: &R)
        ensures most { most_of self.new ≡ most_of self.old }
        ensures spins { spins_of self.new ≡ spins_of self.old }
        ensures looks { looks_of self.new ≡ looks_of self.old }
        ensures lies { lies_down self.new ≡ false }
        ensures millis { millis_of self.new ≡ millis_of self.old }
        ensures micros { micros_of self.new ≡ min 2000 (2 * micros_of self.old) }
        ensures naps { naps_of self.new ≡ naps_of self.old }
        ensures left { naps_left_of self.new ≡ naps_left_of self.old }
        ensures napped { has_napped self.new ≡ has_napped self.old }
    {
        self.bell.sleep(rt, Duration::from_micros(self.micros));
        self.lies = false;
        self.micros = (2 * self.micros).min(LONGEST_DOZE);
    }
}

fn spin_for(count: u32) {
    for _ in 0..count {
        hint::spin_loop();
    }
}
