// Which operands read from a statement.
ghost use Rattle.std.specs.Prelude.{◌≡◌, ◌<◌, ◌≤◌, ◌*◌, length, IfOk};
ghost use Rattle.ff_mdf_tasks.specs.Sources.{AreReaders, link_in, reader_of, source, target};
ghost use Rattle.ff_mdf_tasks.specs.Sources.{with_reader};

use crate::task::links_of;
use ff_mdf::{CheckedProgram, Link, Links};
use ff_rec::NoMemory;
use std::alloc::Global;

/// The operands that read from each statement, the last one first. The operands of all statements
/// are numbered, three for each of them.
#[derive(Drop)]
pub(crate) struct Readers {
    /// For each statement the last operand that reads from it.
    pub(crate) latest: Vec<Option<usize>>,
    /// For each operand the one before it that reads from the same statement.
    pub(crate) earlier: Vec<Option<usize>>,
}

impl Readers {
    /// The readers of a program.
    pub(crate) fn new(alloc: Global, program: &CheckedProgram) -> Result<Readers, NoMemory>
        ensures { IfOk result (AreReaders program.now) }
    {
        let count = program.program().as_slice().len();
        let mut latest = vec![in alloc; None; count]?;
        let mut earlier = Vec::with_capacity(alloc, 3 * count)?;
        for t in 0..3 * count {
            let source = source_of(program, t);
            earlier.push(replace_reader(&mut latest, source, t))?;
        }
        Ok(Readers { latest, earlier })
    }
}

// The statement that operand `t` gets its value from.
fn source_of(program: &CheckedProgram, t: usize) -> Option<usize>
    requires { t < 3 * length program.now }
    ensures { result ≡ source program.now t }
{
    target(link_in(links_of(program, t / 3), t % 3))
}

// The link at place 0, 1 or 2.
fn link_in(links: Links, place: usize) -> Option<Link>
    ensures { result ≡ link_in links place }
{
    if place == 0 {
        links.a
    } else if place == 1 {
        links.b
    } else {
        links.c
    }
}

// The statement that a link leads to.
fn target(link: Option<Link>) -> Option<usize>
    ensures { result ≡ target link }
{
    match link {
        Some(link) => Some(link.task as usize),
        None => None,
    }
}

// Puts operand `t` down as the last that reads from a statement, and answers the one before it.
fn replace_reader(latest: &mut Vec<Option<usize>>, source: Option<usize>, t: usize) -> Option<usize>
    ensures before { result ≡ reader_of latest.old.items source }
    ensures after { latest.new.items ≡ with_reader latest.old.items source t }
{
    let j = source?;
    if latest.len() <= j {
        return None;
    }
    let before = latest[j];
    latest[j] = Some(t);
    before
}
