// One way through a program that links each operand to the latest earlier writer of its name.
ghost use Rattle.std.specs.Prelude.{◌≡◌, ◌<◌, ◌≤◌, ◌^◌, [], length, map, Some};
ghost use Rattle.std.specs.Prelude.{slice_get, IfOk, IfSome, IfNone, OnOk, position, is_none};
ghost use Rattle.std.specs.List.{list_any};
ghost use Rattle.ff_prog.specs.Known.{KnowsLinks, at_name};
ghost use Rattle.ff_prog.specs.Links.{AreLinks};
ghost use Rattle.ff_prog.specs.Rules.{first_at, reads_unwritten};
ghost use Rattle.ff_prog.specs.Unlinked.{has_unlinked, is_unlinked, is_unlinked_if};
ghost use Rattle.ff_prog.specs.Writers.{out_names, outs};

use crate::writers::{Writers, link_of, links_by, note_writer};
use crate::{Link, Links, Name, Operand, Statement};
use ff_rec::NoMemory;
use std::alloc::Global;

/// Links the operands of all statements, up to the first that reads a name which no earlier task
/// writes. That one is answered, counted from 0.
pub(crate) fn link_operands<'a>(
    statements: &'a [Statement],
    writers: &mut Writers<'a>,
    links: &mut Vec<Links>,
) -> Result<Option<usize>, NoMemory>
    requires few { length statements.now ≤ 65537 }
    requires no_writers { writers.old.entries ≡ [] }
    requires no_links { links.old.items ≡ [] }
    ensures first { IfOk result (λ k. k ≡ first_at reads_unwritten statements.now) }
    ensures within { IfOk result (λ o. IfSome o (λ k. k < length statements.now)) }
    ensures links { IfOk result (λ o. IfNone o
        (AreLinks statements.now links.new.items (length statements.now))) }
    ensures all { IfOk result (λ o. IfNone o (length links.new.items ≡ length statements.now)) }
    ensures writers { IfOk result (λ o. IfNone o
        (KnowsLinks writers.new.entries statements.now (length statements.now))) }
{
    for k in 0..statements.len() {
        let statement = &statements[k];
        let linked = links_by(writers, statement);
        if has_unlinked(statement, linked) {
            return Ok(Some(k));
        }
        links.push(linked)?;
        note_writer(writers, statement, k as u32)?;
    }
    Ok(None)
}

// Whether an operand of a statement is a name without a link.
fn has_unlinked(statement: &Statement, links: Links) -> bool
    ensures { result ≡ has_unlinked (Some statement.now) links }
{
    match statement {
        Statement::Task { a, b, c, .. } => {
            is_unlinked(a, links.a) || is_unlinked_if(b, links.b) || is_unlinked_if(c, links.c)
        }
        Statement::Out(_) => false,
    }
}

// Whether an operand is a name without a link.
fn is_unlinked(operand: &Operand, link: Option<Link>) -> bool
    ensures { result ≡ is_unlinked operand.now link }
{
    match operand {
        Operand::Name(_) => link.is_none(),
        Operand::Num(_) => false,
    }
}

// Whether there is an operand that is such a name.
fn is_unlinked_if(operand: &Option<Operand>, link: Option<Link>) -> bool
    ensures { result ≡ is_unlinked_if operand.now link }
{
    match operand {
        Some(operand) => is_unlinked(operand, link),
        None => false,
    }
}

/// The links of the names that are put out.
pub(crate) fn link_outs(
    alloc: Global,
    statements: &[Statement],
    writers: &Writers,
) -> Result<Vec<Option<Link>>, NoMemory>
    ensures { IfOk result
        (λ ls. ls.items ≡ map (at_name writers.now.entries) (out_names statements.now)) }
{
    let mut links = Vec::new(alloc);
    for name in put_out(statements) {
        links.push(link_of(writers, name))?;
    }
    Ok(links)
}

/// The names that are put out.
pub(crate) fn put_out(statements: &[Statement]) -> &[Name]
    ensures { result.now ≡ out_names statements.now }
{
    for statement in statements {
        if let Statement::Out(names) = statement {
            return names.as_slice();
        }
    }
    &[]
}

/// The first statement that puts out a name which no task writes, counted from 0.
pub(crate) fn first_unwritten_out(statements: &[Statement], writers: &Writers) -> Option<usize>
    ensures first { result ≡ position
        (λ s. list_any (λ n. is_none (at_name writers.now.entries n)) (outs s)) statements.now }
    ensures within { IfSome result (λ k. k < length statements.now) }
{
    statements.iter().position(|s| puts_unwritten(writers, s))
}

// Whether a statement puts out a name that no task writes.
fn puts_unwritten(writers: &Writers, statement: &Statement) -> bool
    ensures { result
        ≡ list_any (λ n. is_none (at_name writers.now.entries n)) (outs statement.now) }
{
    match statement {
        Statement::Task { .. } => false,
        Statement::Out(names) => {
            names
                .as_slice()
                .iter()
                .any(|name| link_of(writers, name).is_none())
        }
    }
}
