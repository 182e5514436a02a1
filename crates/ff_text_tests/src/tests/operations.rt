// Operations are printed, and read again by their texts; the texts that are given are written by hand.
use super::tables::expect_told;
use ff_net::Net;
use ff_node::Cmp;
use ff_ops::{Arg, ArgKind, Op, ROWS, Row};
use ff_rec::{Field, NoMemory};
use ff_text::{Described, read_net};
use std::alloc::{AllocError, Global};
use std::process::Abort;
use std::test::Fail;

fn printed(alloc: Global, op: &Op) -> Result<Vec<u8>, NoMemory> {
    let mut text = Vec::new(alloc);
    op.print(&mut text)?;
    Ok(text)
}

// The version and the one operation of a text. Nodes can't be compared; what is shown of them has the row, the arguments and
// the state.
fn shown(alloc: Global, described: &Described) -> Result<String, AllocError> {
    match &described.net {
        Net::Leaf(node) => format!(in alloc; "{:?} {node:?}", described.version),
        _ => String::from_str(alloc, "no operation"),
    }
}

fn shown_again(alloc: Global, text: &[u8]) -> Result<String, Fail> {
    let described = read_net(alloc, text)?;
    Ok(shown(alloc, &described)?)
}

// What is printed of an operation is read as the network that is this one operation.
fn check_read(rt: &impl Abort, alloc: Global, op: &Op, text: &[u8]) -> Result<(), Fail> {
    let want = format!(in alloc; "One {op:?}")?;
    let found = shown_again(alloc, text)?;
    expect_told(rt, text, found.as_bytes(), want.as_bytes());
    Ok(())
}

// An operation is printed, as the text that is given, if any, and read again.
fn check_printed(rt: &impl Abort, alloc: Global, op: &Op, want: Option<&str>) -> Result<(), Fail> {
    let text = printed(alloc, op)?;
    if let Some(want) = want {
        expect_told(rt, want.as_bytes(), &text, want.as_bytes());
    }
    check_read(rt, alloc, op, &text)
}

// Makes the operation, and checks it.
fn check(
    rt: &impl Abort,
    alloc: Global,
    name: &[u8],
    args: &[Arg],
    want: Option<&str>,
) -> Result<(), Fail> {
    let op = Op::read(alloc, name, args)?;
    check_printed(rt, alloc, &op, want)
}

// A comparison of a field with 0.
fn check_if(rt: &impl Abort, alloc: Global, cmp: Cmp, want: &str) -> Result<(), Fail> {
    let args = [Arg::Num(1), Arg::Cmp(cmp), Arg::Num(0)];
    check(rt, alloc, b"if", &args, Some(want))
}

// A field that is set to a text.
fn check_set(rt: &impl Abort, alloc: Global, text: &[u8], want: &str) -> Result<(), Fail> {
    let text = Field::new(alloc, text)?;
    let args = [Arg::Num(64), Arg::Text(text)];
    check(rt, alloc, b"set", &args, Some(want))
}

// An argument of a kind.
fn example(alloc: Global, kind: ArgKind) -> Result<Arg, Fail> {
    Ok(match kind {
        ArgKind::Field => Arg::Num(64),
        ArgKind::Num => Arg::Num(-5),
        ArgKind::NonZero => Arg::Num(-1),
        ArgKind::Count { low, high: _ } => Arg::Num(i64::from(low)),
        ArgKind::Cmp => Arg::Cmp(Cmp::Ne),
        ArgKind::Text => Arg::Text(Field::new(alloc, b"a b")?),
    })
}

// An operation of each row.
fn check_row(rt: &impl Abort, alloc: Global, row: &Row) -> Result<(), Fail> {
    let mut args = Vec::new(alloc);
    for kind in row.kinds() {
        args.push(example(alloc, *kind)?)?;
    }
    check(rt, alloc, row.name(), &args, None)
}

#[test]
fn printed_operations_are_read_again(rt: HostRuntime) -> Result<(), Fail> {
    let alloc = rt.alloc();
    check(&rt, alloc, b"tally", &[], Some("tally"))?;
    let add = [Arg::Num(2), Arg::Num(-9223372036854775808)];
    check(&rt, alloc, b"add", &add, Some("add 2 -9223372036854775808"))?;
    for row in ROWS {
        check_row(&rt, alloc, &row)?;
    }
    Ok(())
}

#[test]
fn printed_comparisons_are_read_again(rt: HostRuntime) -> Result<(), Fail> {
    let alloc = rt.alloc();
    check_if(&rt, alloc, Cmp::Lt, "if 1 < 0")?;
    check_if(&rt, alloc, Cmp::Le, "if 1 <= 0")?;
    check_if(&rt, alloc, Cmp::Eq, "if 1 = 0")?;
    check_if(&rt, alloc, Cmp::Ne, "if 1 != 0")?;
    check_if(&rt, alloc, Cmp::Ge, "if 1 >= 0")?;
    check_if(&rt, alloc, Cmp::Gt, "if 1 > 0")
}

#[test]
fn printed_texts_are_read_again(rt: HostRuntime) -> Result<(), Fail> {
    let alloc = rt.alloc();
    check_set(&rt, alloc, b"", "set 64 \"\"")?;
    check_set(&rt, alloc, b"a;b, #(c)", "set 64 \"a;b, #(c)\"")
}
