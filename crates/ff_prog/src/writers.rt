// The latest writer of each name, while a program is gone through.
ghost use Rattle.std.specs.Prelude.{◌≡◌, ◌<◌, ◌^◌, Some, OnOk, slice_get};
ghost use Rattle.ff_prog.specs.Known.{NotesLink, NotesStatement, at_name};
ghost use Rattle.ff_prog.specs.Links.{links_by, link_if, operand_link};

use crate::{Link, Links, Name, Operand, Statement};
use ff_rec::NoMemory;
use std::collections::HashMap;

/// The link of each name that is written so far.
pub(crate) type Writers<'a> = HashMap<&'a [u8], Link>;

/// The link of a name.
pub(crate) fn link_of(writers: &Writers, name: &Name) -> Option<Link>
    ensures { result ≡ at_name writers.now.entries name.now }
{
    writers.get(name.bytes()).copied()
}

// The link of an operand.
fn operand_link(writers: &Writers, operand: &Operand) -> Option<Link>
    ensures { result ≡ operand_link (at_name writers.now.entries) operand.now }
{
    match operand {
        Operand::Name(name) => link_of(writers, name),
        Operand::Num(_) => None,
    }
}

// The link of an operand that may not be there.
fn link_if(writers: &Writers, operand: &Option<Operand>) -> Option<Link>
    ensures { result ≡ link_if (at_name writers.now.entries) operand.now }
{
    match operand {
        Some(operand) => operand_link(writers, operand),
        None => None,
    }
}

/// The links of a statement's operands.
pub(crate) fn links_by(writers: &Writers, statement: &Statement) -> Links
    ensures { result ≡ links_by (at_name writers.now.entries) (Some statement.now) }
{
    match statement {
        Statement::Task { a, b, c, .. } => Links {
            a: operand_link(writers, a),
            b: link_if(writers, b),
            c: link_if(writers, c),
        },
        Statement::Out(_) => Links {
            a: None,
            b: None,
            c: None,
        },
    }
}

/// Notes what a statement writes: where both its names are the same, as its first.
pub(crate) fn note_writer<'a>(
    writers: &mut Writers<'a>,
    statement: &'a Statement,
    task: u32,
) -> Result<(), NoMemory>
    ensures { OnOk result
        (NotesStatement writers.old.entries writers.new.entries (Some statement.now) task) }
{
    let Statement::Task { first, second, .. } = statement else {
        return Ok(());
    };
    if let Some(second) = second {
        note_link(writers, second, Link { task, second: true })?;
    }
    note_link(
        writers,
        first,
        Link {
            task,
            second: false,
        },
    )
}

// Notes the link of a name.
fn note_link<'a>(writers: &mut Writers<'a>, name: &'a Name, link: Link) -> Result<(), NoMemory>
    ensures { OnOk result (NotesLink writers.old.entries writers.new.entries name.now link) }
{
    writers.insert(name.bytes(), link)?;
    Ok(())
}
