// What no clause says: that the calls succeed while memory is there, and that names and arguments are the table's.
mod fields;
mod folds;
mod kinds;
mod numbers;
mod ordered;
mod runs;

use ff_node::Node;
use ff_ops::{Arg, Op, OpFault, ROWS, shape};
use ff_rec::{Cmp, Field, read_number};
use std::alloc::Global;
use std::process::Abort;
use std::test::Fail;

// An argument from its word: a comparison, a text in its quotes, or a number.
fn argument(alloc: Global, word: &str) -> Result<Arg, Fail> {
    Ok(match word.as_bytes() {
        b"<" => Arg::Cmp(Cmp::Lt),
        b"<=" => Arg::Cmp(Cmp::Le),
        b"=" => Arg::Cmp(Cmp::Eq),
        b"!=" => Arg::Cmp(Cmp::Ne),
        b">=" => Arg::Cmp(Cmp::Ge),
        b">" => Arg::Cmp(Cmp::Gt),
        [b'"', text @ .., b'"'] => Arg::Text(Field::new(alloc, text)?),
        number => Arg::Num(read_number(number).ok_or("no number")?),
    })
}

// The operation of a name and arguments with single spaces between them.
fn read(alloc: Global, text: &str) -> Result<Result<Op, OpFault>, Fail> {
    let mut words = text.split(' ');
    let name = words.next().unwrap_or("");
    let mut args = Vec::new(alloc);
    for word in words {
        args.push(argument(alloc, word)?)?;
    }
    Ok(Op::read(alloc, name.as_bytes(), &args))
}

// The operation of a text that isn't refused.
fn operation(alloc: Global, text: &str) -> Result<Op, Fail> {
    Ok(read(alloc, text)??)
}

// An operation has so many arguments, and its row has as many.
fn expect_arguments(rt: &impl Abort, op: &Op, text: &str, want: usize) {
    assert_eq!(rt; op.args().len(), want, "{text}");
    let kinds = shape(op.row().name()).map(|kinds| kinds.len());
    assert_eq!(rt; kinds, Some(want), "{text}");
}

fn expect_text(rt: &impl Abort, found: &[u8], want: &str) {
    assert_eq!(rt; found, want.as_bytes());
}

// An operation is read, has so many arguments, and is printed as it was read; so is its copy.
fn check_text(rt: &impl Abort, alloc: Global, text: &str, arguments: usize) -> Result<(), Fail> {
    let op = operation(alloc, text)?;
    expect_arguments(rt, &op, text, arguments);
    expect_text(rt, &printed(alloc, &op)?, text);
    Ok(())
}

fn copy_of(op: &Op) -> Result<Op, Fail> {
    Ok(Node::copy(op)?)
}

// The text of an operation's copy.
fn printed(alloc: Global, op: &Op) -> Result<Vec<u8>, Fail> {
    let mut text = Vec::new(alloc);
    copy_of(op)?.print(&mut text)?;
    Ok(text)
}

// Checks each of the texts, with `|` between them, and answers how many there are.
fn check_texts(
    rt: &impl Abort,
    alloc: Global,
    texts: &str,
    arguments: usize,
) -> Result<usize, Fail> {
    let mut count: usize = 0;
    for text in texts.split('|') {
        check_text(rt, alloc, text, arguments)?;
        count = count.saturating_add(1);
    }
    Ok(count)
}

// Texts of one row each, by their number of arguments.
const NONE: &str = "id|number|tally";

const ONE: &str =
    "neg 1|keep 2|drop 2|copy 3|len 1|upper 1|lower 1|words 1|dup 64|halve 1|runsum 1|delta 1|\
    take 1000000000|skip 0|uniq 1|total 1|min 1|max 1|tallyby 1";

const TWO: &str = "add 1 -5|sub 64 7|mul 2 -9223372036854775808|div 1 -1|rem 1 9223372036854775807|\
    set 1 \"a;b\"|swap 1 64|ifeq 1 \"\"|has 1 \"x\"|plus 1 2|totalby 1 2";

const THREE: &str = "if 1 != 3";

#[test]
fn each_row_is_read_and_printed(rt: HostRuntime) -> Result<(), Fail> {
    let mut count: usize = 0;
    for (arguments, texts) in [(0, NONE), (1, ONE), (2, TWO), (3, THREE)] {
        count = count.saturating_add(check_texts(&rt, rt.alloc(), texts, arguments)?);
    }
    assert_eq!(rt; count, ROWS.len());
    check_texts(
        &rt,
        rt.alloc(),
        "if 1 < 0|if 1 <= 0|if 1 = 0|if 1 >= 0|if 1 > 0",
        3,
    )?;
    Ok(())
}

fn fault_of(alloc: Global, text: &str) -> Result<Option<OpFault>, Fail> {
    Ok(read(alloc, text)?.err())
}

fn check_fault(rt: &impl Abort, alloc: Global, text: &str, want: OpFault) -> Result<(), Fail> {
    assert_eq!(rt; fault_of(alloc, text)?, Some(want), "{text}");
    Ok(())
}

// Each of the texts, with `|` between them, is refused for this fault.
fn check_refused(rt: &impl Abort, alloc: Global, texts: &str, want: OpFault) -> Result<(), Fail> {
    for text in texts.split('|') {
        check_fault(rt, alloc, text, want)?;
    }
    Ok(())
}

#[test]
fn refusals_come_in_their_order(rt: HostRuntime) -> Result<(), Fail> {
    for (fault, texts) in [
        (OpFault::UnknownOp, "addx 1 1||Id"),
        (OpFault::ArgCount, "id 1|add 0|add \"\" 1 1"),
        (OpFault::ArgKind(0), "add < \"1\""),
        (OpFault::ArgKind(1), "add 65 \"1\"|if 1 5 5|set 1 5"),
        (
            OpFault::ArgRange(0),
            "add 65 1|add 0 1|swap 65 0|dup 0|dup 65|take 0|skip 1000000001",
        ),
        (OpFault::ArgRange(1), "swap 1 -1|div 1 0|rem 1 0"),
    ] {
        check_refused(&rt, rt.alloc(), texts, fault)?;
    }
    assert_eq!(rt; shape(b"addx").is_none(), true);
    Ok(())
}
