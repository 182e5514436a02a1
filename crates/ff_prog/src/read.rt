// From a text to a program.
ghost use Rattle.std.specs.Prelude.{◌≡◌, ◌≤◌, map, length, IfOk, OnOk, IfErr, Some};
ghost use Rattle.ff_prog.specs.Words.{statements};
ghost use Rattle.ff_prog.specs.Reading.{read, IsReadFault};

use crate::grammar::statement;
use crate::word::{is_statement, without_comment};
use crate::{ProgFault, Program};
use ff_rec::{LONGEST_TEXT, split};
use std::alloc::Global;

/// The statements of a text, in their order.
pub fn read_program(alloc: Global, text: &[u8]) -> Result<Program, ProgFault>
    ensures ok { IfOk result (λ p. read (statements text.now) ≡ map Some p) }
    ensures within { OnOk result (length text.now ≤ LONGEST_TEXT) }
    ensures fault { IfErr result (λ fault. IsReadFault text.now fault) }
{
    if text.len() > LONGEST_TEXT {
        return Err(ProgFault::TooLong);
    }
    let mut program = Vec::new(alloc);
    let mut lines = Some(text);
    while let Some(rest) = lines {
        let (line, more_lines) = split(rest, b'\n');
        let mut pieces = Some(without_comment(line));
        while let Some(rest) = pieces {
            let (piece, more_pieces) = split(rest, b';');
            if is_statement(piece) {
                let Some(statement) = statement(alloc, piece)? else {
                    return Err(ProgFault::Syntax(program.len() as u32 + 1));
                };
                program.push(statement)?;
            }
            pieces = more_pieces;
        }
        lines = more_lines;
    }
    Ok(Program::of(program))
}
