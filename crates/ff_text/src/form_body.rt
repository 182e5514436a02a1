// The forms of networks, each from behind its word.
ghost use Rattle.std.specs.Prelude.{◌∷◌, [], suc, IfOk};
ghost use Rattle.ff_net.specs.Tree.{tree_of, trees_of};
ghost use Rattle.ff_text.specs.Grammar.{form_word, a_count, count_token, sched_word, IsCount, IsNet, AreParts};
ghost use Rattle.ff_text.specs.Printing.{tokens_of};
ghost use Rattle.ff_text.specs.Names.{AreNets};
ghost use Rattle.ff_text.specs.Reading.{IsEaten};
ghost use Rattle.ff_text.specs.Seen.{context_of, names_of};
ghost use Rattle.ff_text.specs.Spelling.{Spells, SpellsParts, InMarks, MarksBehind};
ghost use Rattle.ff_text.specs.Tokens.{Word};
ghost use Rattle.ff_text.specs.Wants.{Network, Parts, Argument, Schedule, Opening, Closing, rest_of};

use crate::argument::count;
use crate::context::Context;
use crate::delimiters::{another, opening};
use crate::form::Form;
use crate::network::{marked, network, side};
use crate::schedule::{route, sched};
use crate::wrap_test::tested;
use crate::{ReadFault, Reader};
use ff_net::{Net, Sched};
use ff_ops::Op;
use std::alloc::Global;

/// A form with at most `room` forms round one another in it, from behind its word.
#[cycle(networks)]
#[tactic(auto, using(ff_net::specs::Tree::tree_forms))]
pub(crate) fn formed(
    alloc: Global,
    context: &Context,
    room: usize,
    form: Form,
    reader: &mut Reader,
) -> Result<Net<Op>, ReadFault>
    requires { AreNets (names_of context.now) }
    ensures eaten { IsEaten (context_of context.now) (rest_of room form)
        result reader.old reader.new }
    ensures net { IfOk result (λ net. IsNet (tree_of net) (suc room)) }
    ensures text { IfOk result (λ net.
        Spells (names_of context.now) (tree_of net)
        (Word (form_word form) ∷ tokens_of reader.old) (tokens_of reader.new)) }
{
    match form {
        Form::Pipe => Ok(Net::Pipe(parts(alloc, context, room, reader)?)),
        Form::Comb => Ok(Net::Comb(parts(alloc, context, room, reader)?)),
        Form::Farm => {
            let (workers, sched, worker) = farm(alloc, context, room, reader)?;
            Ok(Net::Farm {
                workers,
                sched,
                worker,
            })
        }
        Form::OFarm => {
            let (workers, sched, worker) = farm(alloc, context, room, reader)?;
            Ok(Net::OFarm {
                workers,
                sched,
                worker,
            })
        }
        Form::A2a => a2a(alloc, context, room, reader),
        Form::Wrap => {
            let (workers, worker) = side(alloc, context, room, reader)?;
            let test = tested(alloc, context, reader)?;
            Ok(Net::Wrap {
                workers,
                worker,
                test,
            })
        }
    }
}

// The parts of a pipe or comb, in their marks.
#[cycle(networks)]
fn parts(
    alloc: Global,
    context: &Context,
    room: usize,
    reader: &mut Reader,
) -> Result<Vec<Net<Op>>, ReadFault>
    requires { AreNets (names_of context.now) }
    ensures eaten { IsEaten (context_of context.now) (Opening ∷ Network room ∷ Parts room ∷ [])
        result reader.old reader.new }
    ensures nets { IfOk result (λ parts. AreParts (trees_of parts.items) room) }
    ensures text { IfOk result (λ parts.
        InMarks (SpellsParts (names_of context.now) (trees_of parts.items))
        (tokens_of reader.old) (tokens_of reader.new)) }
{
    opening(context, reader)?;
    let mut parts = Vec::new(alloc);
    let mut more = true;
    while more {
        parts.push(network(alloc, context, room, reader)?)?;
        more = another(context, reader)?;
    }
    Ok(parts)
}

// The workers of a farm, from behind its word.
#[cycle(networks)]
fn farm(
    alloc: Global,
    context: &Context,
    room: usize,
    reader: &mut Reader,
) -> Result<(u32, Sched, Box<Net<Op>>), ReadFault>
    requires { AreNets (names_of context.now) }
    ensures eaten { IsEaten (context_of context.now)
        (Argument a_count ∷ Schedule ∷ Opening ∷ Network room ∷ Closing ∷ []) result reader.old reader.new }
    ensures count { IfOk result (λ farm. IsCount farm.0) }
    ensures net { IfOk result (λ farm. IsNet (tree_of farm.2.value) room) }
    ensures text { IfOk result (λ farm.
        MarksBehind (count_token farm.0 ∷ Word (sched_word farm.1) ∷ [])
        (Spells (names_of context.now) (tree_of farm.2.value))
        (tokens_of reader.old) (tokens_of reader.new)) }
{
    let workers = count(alloc, context, reader)?;
    let sched = sched(context, reader)?;
    let worker = marked(alloc, context, room, reader)?;
    Ok((workers, sched, worker))
}

// An all-to-all, from behind its word.
#[cycle(networks)]
fn a2a(
    alloc: Global,
    context: &Context,
    room: usize,
    reader: &mut Reader,
) -> Result<Net<Op>, ReadFault>
    requires { AreNets (names_of context.now) }
    ensures eaten { IsEaten (context_of context.now) (rest_of room Form.A2a)
        result reader.old reader.new }
    ensures net { IfOk result (λ net. IsNet (tree_of net) (suc room)) }
    ensures text { IfOk result (λ net.
        Spells (names_of context.now) (tree_of net)
        (Word (form_word Form.A2a) ∷ tokens_of reader.old) (tokens_of reader.new)) }
{
    let (left, left_node) = side(alloc, context, room, reader)?;
    let route = route(alloc, context, reader)?;
    let (right, right_node) = side(alloc, context, room, reader)?;
    Ok(Net::A2a {
        left,
        left_node,
        route,
        right,
        right_node,
    })
}
