//! Bounded rings between two threads, which hand messages over in bundles, and the pause of a thread that waits for
//! one.
#![tactic(auto)]

mod bell;
mod bundle;
mod inlet;
mod looks;
mod making;
mod outlet;
mod pause;
mod ring_in;
mod ring_out;
mod ringer;
mod settling;
mod spins;

pub use bell::Bell;
pub use making::ring;
pub use pause::Pause;
pub use ring_in::RingIn;
pub use ring_out::RingOut;
pub use settling::settle;
pub use spins::Spins;
