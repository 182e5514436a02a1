// The call that `main` makes.
ghost use Rattle.std.specs.Prelude.{◌≡◌, ◌⊎◌, ℕ, [], ◌∷◌, None, Ok, Err, true, false, Contains, IsSomeAnd};
ghost use Rattle.ff_call.specs.Messages.{memory_message, Tells};
ghost use Rattle.ff_call.specs.Statuses.{status_of};
ghost use Rattle.ff_top.specs.Commands.{reads_input, works_alone};
ghost use Rattle.ff_top.specs.Endings.{Did, DidMdf, DidSoak, Ended, IsComplete};
ghost use Rattle.ff_words.specs.Parsed.{texts};
ghost use Rattle.ff_words.specs.Words.{command};

use crate::execute::execute;
use crate::starts::StartsAll;
use ff_call::{Devices, Fault, Seen, WaitingMachine, room_for, tell, write_memory};
use ff_io::Sink;
use ff_rec::reading_is_cutting;
use ff_text::networks_spelled_alike_are_the_same;
use std::alloc::Global;

/// Does what the words say, and answers the status that the process ends with. What is said of it goes to `err`: the
/// message of each status other than 0, and the number of rejected records. Where `err` fails, the status is the same. Threads
/// wait by `rt`.
pub fn ffrun<M: WaitingMachine>(
    rt: &M::Wait,
    alloc: Global,
    words: &[String],
    devices: &mut Devices<M>,
) -> u8
where
    M::Spawner: StartsAll<M::Wait>,
    ensures status { Contains (0 ∷ 1 ∷ 2 ∷ 3 ∷ 4 ∷ 5 ∷ 6 ∷ []) result }

    // Each answer with its status, when it comes, what was read, written and stored then, which count of faults or of refused
    // starts rose, and what is told of it.
    ensures ends { let seen = ⟦<Devices<M> as Seen>⟧.world in
        Ended result (texts words.now) (seen devices.old) (seen devices.new) }

    // 0: the text that is given spells a network that keeps all rules, and the command was done with it: for `run` over all
    // records of the input, of which the output took the text of an answer, and nothing besides. Where it ran by threads, as
    // many starts as units were counted, or more, and as much work as records and units, or more. Or the words ask for a soak, and its
    // summary was written. Or they ask for the run of a program, and what it puts out was written, which is the same for every number of
    // workers; as many starts as workers were counted, or more, and as much work as tasks.
    ensures done { let seen = ⟦<Devices<M> as Seen>⟧.outside in
        result ≡ 0 → (rejected : ℕ)
        × (Did (texts words.now) (seen devices.old) (seen devices.new) (Ok rejected)
        ⊎ (DidMdf (texts words.now) (seen devices.old) (seen devices.new) (Ok rejected)
        ⊎ DidSoak (texts words.now) (seen devices.old) (seen devices.new) (Ok rejected))) }

    // 1 exactly where the words aren't a command, unless memory ran out.
    ensures usage { result ≡ 1 → command (texts words.now) ≡ None }
    ensures no_command { command (texts words.now) ≡ None → (result ≡ 1) ⊎ (result ≡ 6) }

    // At 1, 2 and 5, and by a command that doesn't read the input, the input is the same value behind the call.
    ensures unread { (result ≡ 1) ⊎ ((result ≡ 2) ⊎ (result ≡ 5)) → devices.new.input ≡ devices.old.input }
    ensures unread_by { IsSomeAnd (command (texts words.now)) (λ job. reads_input job ≡ false)
        → devices.new.input ≡ devices.old.input }

    // With `--one` or `--sweep`, and by `check` and `plan`, what starts threads is the same value behind the call.
    ensures alone { IsSomeAnd (command (texts words.now)) (λ job. works_alone job ≡ true)
        → devices.new.spawner ≡ devices.old.spawner }

    // Where no count of faults or refused starts rose, and unless memory ran out: an accepted command over an input within the limits is
    // done, over another input a limit is told, a network that is to be swept and can't be, or a text that isn't accepted, is refused,
    // and a soak is done.
    ensures complete { let seen = ⟦<Devices<M> as Seen>⟧.outside in
        IsComplete result (texts words.now) (seen devices.old) (seen devices.new) }
{
    reading_is_cutting();
    networks_spelled_alike_are_the_same();
    let room = room_for(alloc, words);
    let ending = execute(rt, alloc, words, devices);
    tell(&ending, room, &mut devices.err);
    status_of(&ending)
}

// The status of a call that ended so.
fn status_of(ending: &Result<u64, Fault>) -> u8
    ensures { result ≡ status_of ending.now }
{
    match ending {
        Ok(_) => 0,
        Err(fault) => fault.status(),
    }
}

/// Tells that memory ran out before there were words, and answers the status that the process ends with.
pub fn refuse_memory<E: Sink>(err: &mut E) -> u8
    ensures status { result ≡ 6 }
    ensures says { Tells (E.taken err.old) (E.taken err.new) (E.faults err.old) (E.faults err.new)
        memory_message }
{
    let _ = write_memory(err);
    6
}
