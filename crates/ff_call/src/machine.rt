// The kinds of devices that a call meets.
use ff_io::{Files, Sink, Source};
use ff_spawn::Refusals;
use std::marker::PhantomData;
use std::sync::Wait;

/// Of which kind each device of a call is. One type so stands for all of them.
pub trait Machine {
    type Files: Files + Drop;

    type Input: Source + Drop;

    type Out: Sink + Drop;

    /// What takes the messages.
    type Err: Sink + Drop;

    /// What starts threads. Which jobs it has to start, each command says by a bound of its own; its counts are the same for all.
    type Spawner: Refusals + Drop;
}

/// A machine that may wait for its threads.
pub trait WaitingMachine: Machine {
    /// The right to wait.
    type Wait: Wait + Clone + Drop + Send + 'static;
}

/// The machine of devices of these kinds, in the order of `Machine`, whose threads wait by an `R`. It is a name for them alone,
/// and no value is made of it.
#[derive(Drop)]
pub struct Kinds<F, I, O, E, S, R> {
    kinds: PhantomData<(F, I, O, E, S, R)>,
}

impl<F, I, O, E, S, R> Machine for Kinds<F, I, O, E, S, R>
where
    F: Files + Drop,
    I: Source + Drop,
    O: Sink + Drop,
    E: Sink + Drop,
    S: Refusals + Drop,
{
    type Files = F;

    type Input = I;

    type Out = O;

    type Err = E;

    type Spawner = S;
}

impl<F, I, O, E, S, R> WaitingMachine for Kinds<F, I, O, E, S, R>
where
    F: Files + Drop,
    I: Source + Drop,
    O: Sink + Drop,
    E: Sink + Drop,
    S: Refusals + Drop,
    R: Wait + Clone + Drop + Send + 'static,
{
    type Wait = R;
}
