// The words and numbers of forms, printed.
ghost use Rattle.std.specs.Prelude.{◌≡◌, ◌++◌, ◌∷◌, OnOk, pos, codes};
ghost use Rattle.ff_rec.specs.Number.{printed};
ghost use Rattle.ff_text.specs.Grammar.{sched_word};
ghost use Rattle.ff_text.specs.NetPrinting.{printed_side, printed_farm, printed_route, printed_middle, printed_test};

use ff_net::{Route, Sched, Test};
use ff_ops::Arg;
use ff_rec::NoMemory;

/// A count, a field number, or the number of an edge.
pub(super) fn print_count(n: u32, into: &mut Vec<u8>) -> Result<(), NoMemory>
    ensures { OnOk result (into.new.items ≡ into.old.items ++ printed (pos n)) }
{
    Arg::Num(i64::from(n)).print(into)
}

/// The word of a form and a count, up to `(`.
pub(super) fn print_side(word: &[u8], n: u32, into: &mut Vec<u8>) -> Result<(), NoMemory>
    ensures { OnOk result (into.new.items ≡ into.old.items ++ printed_side word.now n) }
{
    into.extend_from_slice(word)?;
    into.push(b' ')?;
    print_count(n, into)?;
    into.extend_from_slice(b" (")?;
    Ok(())
}

/// The front of a farm, up to `(`.
pub(super) fn print_front(
    word: &[u8],
    n: u32,
    sched: Sched,
    into: &mut Vec<u8>,
) -> Result<(), NoMemory>
    ensures { OnOk result (into.new.items ≡ into.old.items ++ printed_farm word.now n sched) }
{
    into.extend_from_slice(word)?;
    into.push(b' ')?;
    print_count(n, into)?;
    into.push(b' ')?;
    into.extend_from_slice(sched_bytes(sched))?;
    into.extend_from_slice(b" (")?;
    Ok(())
}

// The word of a schedule.
fn sched_bytes(sched: Sched) -> &'static [u8]
    ensures { result.now ≡ sched_word sched }
{
    match sched {
        Sched::Rr => b"rr",
        Sched::Od => b"od",
    }
}

// The words of a route.
fn print_route(route: Route, into: &mut Vec<u8>) -> Result<(), NoMemory>
    ensures { OnOk result (into.new.items ≡ into.old.items ++ printed_route route) }
{
    match route {
        Route::Rr => into.extend_from_slice(b"rr")?,
        Route::Od => into.extend_from_slice(b"od")?,
        Route::By(field) => {
            into.extend_from_slice(b"by ")?;
            print_count(field, into)?;
        }
    }
    Ok(())
}

/// What stands between the nodes of an all-to-all.
pub(super) fn print_middle(route: Route, n: u32, into: &mut Vec<u8>) -> Result<(), NoMemory>
    ensures { OnOk result (into.new.items ≡ into.old.items ++ printed_middle route n) }
{
    into.extend_from_slice(b") ")?;
    print_route(route, into)?;
    into.push(b' ')?;
    print_count(n, into)?;
    into.extend_from_slice(b" (")?;
    Ok(())
}

/// What stands behind the worker of a wrap.
pub(super) fn print_test(test: &Test, into: &mut Vec<u8>) -> Result<(), NoMemory>
    ensures { OnOk result (into.new.items ≡ into.old.items ++ printed_test test.now) }
{
    into.extend_from_slice(b") if ")?;
    print_count(test.field, into)?;
    into.push(b' ')?;
    Arg::Cmp(test.cmp).print(into)?;
    into.push(b' ')?;
    Arg::Num(test.value).print(into)
}
