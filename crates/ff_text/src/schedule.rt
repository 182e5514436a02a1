// The words of schedules and routes.
ghost use Rattle.std.specs.Prelude.{◌≡◌, [], ◌∷◌, ◌++◌, IfOk, MatchOption, true, false};
ghost use Rattle.ff_text.specs.Grammar.{IsRoute, sched_word, route_spelling};
ghost use Rattle.ff_text.specs.Printing.{tokens_of};
ghost use Rattle.ff_text.specs.Reading.{IsEaten};
ghost use Rattle.ff_text.specs.Seen.{context_of};
ghost use Rattle.ff_text.specs.Tokens.{Word};
ghost use Rattle.ff_text.specs.Wants.{Schedule, Routing, is_sched};

use crate::argument::count;
use crate::context::Context;
use crate::misplaced::misplaced;
use crate::{ReadFault, Reader, Token};
use ff_net::{Route, Sched};
use std::alloc::Global;

/// `rr` or `od`.
pub(crate) fn sched(context: &Context, reader: &mut Reader) -> Result<Sched, ReadFault>
    ensures eaten { IsEaten (context_of context.now) (Schedule ∷ []) result reader.old reader.new }
    ensures text { IfOk result (λ s.
        tokens_of reader.old ≡ Word (sched_word s) ∷ tokens_of reader.new) }
{
    let spot = reader.next();
    let Token::Word(name) = spot.token else {
        return Err(misplaced(context.version, spot));
    };
    match sched_named(name) {
        Some(sched) => Ok(sched),
        None => Err(misplaced(context.version, spot)),
    }
}

// The schedule of a word.
fn sched_named(name: &[u8]) -> Option<Sched>
    ensures { MatchOption result (is_sched name.now ≡ false)
        (λ s. (is_sched name.now ≡ true) × (name.now ≡ sched_word s)) }
{
    if name == b"rr".as_slice() {
        Some(Sched::Rr)
    } else if name == b"od".as_slice() {
        Some(Sched::Od)
    } else {
        None
    }
}

/// A route.
pub(crate) fn route(
    alloc: Global,
    context: &Context,
    reader: &mut Reader,
) -> Result<Route, ReadFault>
    ensures eaten { IsEaten (context_of context.now) (Routing ∷ []) result reader.old reader.new }
    ensures route { IfOk result (λ r. IsRoute r) }
    ensures text { IfOk result (λ r.
        tokens_of reader.old ≡ route_spelling r ++ tokens_of reader.new) }
{
    let spot = reader.next();
    let Token::Word(name) = spot.token else {
        return Err(misplaced(context.version, spot));
    };
    match sched_named(name) {
        Some(Sched::Rr) => Ok(Route::Rr),
        Some(Sched::Od) => Ok(Route::Od),
        None => {
            if name == b"by".as_slice() {
                return Ok(Route::By(count(alloc, context, reader)?));
            }
            Err(misplaced(context.version, spot))
        }
    }
}
