// What goes over a ring: messages in a block, which comes back empty over a second ring.
use ff_rec::Msg;
use rtrb::Protocol;
use std::collections::VecDeque;

/// The messages that are handed over together.
pub(crate) type Bundle<T> = VecDeque<Msg<T>>;

/// What is known of a bundle that was handed over: it isn't empty.
#[derive(Clone, Copy)]
pub(crate) struct Filled;

impl<T> Protocol<VecDeque<Msg<T>>> for Filled {
    ghost use Rattle.std.specs.Prelude.{◌<◌, length};
    ghost use Rattle.std.proofs.Common.{deque_capacity};

    ghost allows = { λ before bundle. (0 < length bundle.items) × (0 < deque_capacity bundle) };
}

/// What is known of a block that came back: it is empty, and has room.
#[derive(Clone, Copy)]
pub(crate) struct Emptied;

impl<T> Protocol<VecDeque<Msg<T>>> for Emptied {
    ghost use Rattle.std.specs.Prelude.{◌≡◌, ◌<◌, []};
    ghost use Rattle.std.proofs.Common.{deque_capacity};

    ghost allows = { λ before bundle. (bundle.items ≡ []) × (0 < deque_capacity bundle) };
}
