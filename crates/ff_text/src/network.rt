// A network: a form, an operation, or a word that stands for one; and a network in its marks.
ghost use Rattle.std.specs.Prelude.{◌≡◌, ◌∷◌, [], IfOk, Some};
ghost use Rattle.ff_net.specs.Tree.{tree_of};
ghost use Rattle.ff_text.specs.Grammar.{a_count, count_token, IsCount, IsNet};
ghost use Rattle.ff_text.specs.Printing.{tokens_of};
ghost use Rattle.ff_text.specs.Names.{net_named, AreNets};
ghost use Rattle.ff_text.specs.Reading.{IsEaten, IsBegun};
ghost use Rattle.ff_text.specs.Seen.{context_of, names_of};
ghost use Rattle.ff_text.specs.Spelling.{Spells, InMarks, MarksBehind};
ghost use Rattle.ff_text.specs.Tokens.{Word};
ghost use Rattle.ff_text.specs.Wants.{Network, Argument, Opening, Closing, begin_use};

use crate::argument::count;
use crate::context::Context;
use crate::delimiters::{closing, opening};
use crate::form::Form;
use crate::form_body::formed;
use crate::misplaced::{fault_at, misplaced};
use crate::operation::operation;
use crate::{ReadFault, Reader, TextKind, Token};
use ff_net::Net;
use ff_ops::{Op, Row};
use std::alloc::Global;

/// The network at the front of what the reader has left, with at most `room` forms round one another.
#[cycle(networks)]
pub fn network(
    alloc: Global,
    context: &Context,
    room: usize,
    reader: &mut Reader,
) -> Result<Net<Op>, ReadFault>
    requires { AreNets (names_of context.now) }
    ensures eaten { IsEaten (context_of context.now) (Network room ∷ [])
        result reader.old reader.new }
    ensures net { IfOk result (λ net. IsNet (tree_of net) room) }
    ensures text { IfOk result (λ net.
        Spells (names_of context.now) (tree_of net) (tokens_of reader.old) (tokens_of reader.new)) }
{
    let spot = reader.next();
    let Token::Word(name) = spot.token else {
        return Err(misplaced(context.version, spot));
    };
    if let Some(form) = Form::named(name) {
        if room == 0 {
            return Err(fault_at(spot.at, TextKind::Deep));
        }
        return formed(alloc, context, room - 1, form, reader);
    }
    match Row::named(name) {
        Some(row) => Ok(Net::Leaf(operation(alloc, context, row, reader)?)),
        None => used(alloc, context, room, name, spot.at),
    }
}

// The network that a word stands for, where there is room for it.
fn used(
    alloc: Global,
    context: &Context,
    room: usize,
    word: &[u8],
    at: usize,
) -> Result<Net<Op>, ReadFault>
    requires { AreNets (names_of context.now) }
    ensures begun { IsBegun (begin_use (net_named (names_of context.now) word.now) room) at result }
    ensures net { IfOk result (λ net. IsNet (tree_of net) room) }
    ensures named { IfOk result (λ net.
        net_named (names_of context.now) word.now ≡ Some (tree_of net)) }
{
    let Some(net) = context.net(word) else {
        return Err(fault_at(at, TextKind::UnknownName));
    };
    if net.depth() > room.saturating_add(1) {
        return Err(fault_at(at, TextKind::Deep));
    }
    Ok(net.copy(alloc)?)
}

/// Copies of a network.
#[cycle(networks)]
pub(crate) fn side(
    alloc: Global,
    context: &Context,
    room: usize,
    reader: &mut Reader,
) -> Result<(u32, Box<Net<Op>>), ReadFault>
    requires { AreNets (names_of context.now) }
    ensures eaten { IsEaten (context_of context.now)
        (Argument a_count ∷ Opening ∷ Network room ∷ Closing ∷ []) result reader.old reader.new }
    ensures count { IfOk result (λ side. IsCount side.0) }
    ensures net { IfOk result (λ side. IsNet (tree_of side.1.value) room) }
    ensures text { IfOk result (λ side.
        MarksBehind (count_token side.0 ∷ []) (Spells (names_of context.now) (tree_of side.1.value))
        (tokens_of reader.old) (tokens_of reader.new)) }
{
    let copies = count(alloc, context, reader)?;
    let node = marked(alloc, context, room, reader)?;
    Ok((copies, node))
}

/// A network in its marks.
#[cycle(networks)]
pub(crate) fn marked(
    alloc: Global,
    context: &Context,
    room: usize,
    reader: &mut Reader,
) -> Result<Box<Net<Op>>, ReadFault>
    requires { AreNets (names_of context.now) }
    ensures eaten { IsEaten (context_of context.now) (Opening ∷ Network room ∷ Closing ∷ [])
        result reader.old reader.new }
    ensures net { IfOk result (λ net. IsNet (tree_of net.value) room) }
    ensures text { IfOk result (λ net.
        InMarks (Spells (names_of context.now) (tree_of net.value))
        (tokens_of reader.old) (tokens_of reader.new)) }
{
    opening(context, reader)?;
    let net = network(alloc, context, room, reader)?;
    closing(context, reader)?;
    Ok(Box::new(alloc, net)?)
}
