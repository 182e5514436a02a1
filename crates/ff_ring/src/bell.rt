// How a thread is woken, and how another one sees that it rests.
use std::sync::Wait;
use std::sync::atomic::{AtomicBool, AtomicU64, Ordering};
use std::thread::Parker;
use std::time::Duration;

// The thread works, or its bell rang since it last tried.
const WORKS: u64 = 0;

// It found nothing to do, and tries once more, before it parks or naps.
const TRIES: u64 = 1;

// That try found nothing either, and the bell hasn't rung since before it: all that was handed over was seen.
const RESTS: u64 = 2;

// As before, and another thread noted it.
const NOTED: u64 = 3;

/// The bell of a thread. The other ends of its rings ring it behind a handing over, or behind several at once, which wakes the thread.
///
/// It also tells whether the thread rests. A thread rests only once a try found nothing that began after the last ring:
/// a ring undoes what led there, and a try that began before it doesn't count. What was handed over before a ring is
/// found by each try that begins after it. So a thread that rests has nothing to do but what others hand over later. One that
/// has ended has nothing more to do at all, and counts as one that rests.
#[derive(Drop)]
pub struct Bell {
    parker: Parker,
    state: AtomicU64,
    // Whether the thread found no room since it lay down.
    wants_room: AtomicBool,
    // Whether it has ended. A word of its own, since a ring at that moment may write the state.
    ended: AtomicBool,
}

impl Bell {
    /// The bell of a thread that works.
    pub fn new() -> Bell {
        Bell {
            parker: Parker::new(),
            state: AtomicU64::new(WORKS),
            wants_room: AtomicBool::new(false),
            ended: AtomicBool::new(false),
        }
    }

    /// Wakes the thread, where it lay down. Something was handed over to it before.
    pub fn ring(&self) {
        // A thread that works tries once more before it sleeps, and finds it then. So bells that ring all the time are only read: a write
        // would take the word from the other threads.
        if self.state.load(Ordering::SeqCst) == WORKS {
            return;
        }
        // In this order: a thread whose rest is undone is also woken, to lie down again.
        self.state.store(WORKS, Ordering::SeqCst);
        self.parker.unpark();
    }

    /// Wakes the thread, where it found no room since it lay down. Room was made in a ring that it writes.
    pub fn ring_for_room(&self) {
        if self.wants_room.load(Ordering::SeqCst) {
            self.ring();
        }
    }

    /// The thread found no room. It is to look once more behind this, since who made some may not have seen it.
    pub fn wants_room(&self) {
        self.wants_room.store(true, Ordering::SeqCst);
    }

    /// Whether the thread rests, which is noted, or has ended.
    pub fn notes_rest(&self) -> bool {
        if self.has_ended() {
            return true;
        }
        let state = &self.state;
        match state.compare_exchange(RESTS, NOTED, Ordering::SeqCst, Ordering::SeqCst) {
            Ok(_) => true,
            Err(seen) => seen == NOTED,
        }
    }

    /// Whether the thread has rested ever since that was noted, or has ended.
    pub fn still_rests(&self) -> bool {
        self.has_ended() || self.state.load(Ordering::SeqCst) == NOTED
    }

    /// The thread has ended. It counts as one that rests from now on, whoever rings.
    pub fn ends(&self) {
        self.ended.store(true, Ordering::SeqCst);
    }

    fn has_ended(&self) -> bool {
        self.ended.load(Ordering::SeqCst)
    }

    /// The thread is about to try once more.
    pub fn tries(&self) {
        self.wants_room.store(false, Ordering::SeqCst);
        self.state.store(TRIES, Ordering::SeqCst);
    }

    /// The thread works again.
    pub(crate) fn works(&self) {
        self.state.store(WORKS, Ordering::SeqCst);
    }

    /// The thread naps until the bell rings or the time is over. It doesn't rest.
    pub(crate) fn nap<R: Wait>(&self, rt: &R, time: Duration) {
        self.parker.park_timeout(rt, time);
        self.works();
    }

    /// The thread sleeps until the bell rings or the time is over. It rests meanwhile, if it tried once more.
    pub fn sleep<R: Wait>(&self, rt: &R, time: Duration) {
        let state = &self.state;
        // Where the bell rang behind that try, this changes nothing, and the sleep ends at once.
        let _ = state.compare_exchange(TRIES, RESTS, Ordering::SeqCst, Ordering::SeqCst);
        self.parker.park_timeout(rt, time);
        self.works();
    }
}
