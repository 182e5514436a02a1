// What an operation promises, and what its copies begin with.
use super::operation;
use super::runs::check_copies;
use ff_node::{Class, Node};
use std::alloc::Global;
use std::process::Abort;
use std::test::Fail;

// The operations by their classes, with `|` between them.
const PLAIN: &str =
    "id|add 1 5|sub 1 5|mul 1 5|div 1 5|rem 1 5|neg 1|keep 1|drop 1|set 1 \"a\"|swap 1 2|copy 1|len 1|\
    upper 1|lower 1|if 1 < 5|ifeq 1 \"a\"|has 1 \"a\"|words 1|dup 2|halve 1|plus 1 2";

const ORDERED: &str = "number|runsum 1|delta 1|take 1|skip 1|uniq 1";

const FOLDS: &str = "tally|total 2|min 1|max 1";

const KEYED: &str = "tallyby 3|totalby 3 2";

fn expect_class(rt: &impl Abort, found: Class, want: Class, text: &str) {
    assert_eq!(rt; found, want, "{text}");
}

fn check_classes(rt: &impl Abort, alloc: Global, texts: &str, want: Class) -> Result<(), Fail> {
    for text in texts.split('|') {
        let op = operation(alloc, text)?;
        expect_class(rt, op.class(), want, text);
    }
    Ok(())
}

#[test]
fn each_operation_has_its_class(rt: HostRuntime) -> Result<(), Fail> {
    for (want, texts) in [
        (Class::Plain, PLAIN),
        (Class::Ordered, ORDERED),
        (Class::Fold, FOLDS),
        (Class::Keyed(3), KEYED),
    ] {
        check_classes(&rt, rt.alloc(), texts, want)?;
    }
    Ok(())
}

const COPIES: &str = "\
number|a/b/|c/|1\tc/
runsum 1|5/|1/|1/
delta 1|5/|7/|7/
take 2|a/|b/c/|b/c/
skip 1|a/b/|c/d/|d/
uniq 1|a/|a/|a/
tally|a/||0/
total 1|5/|1/|1/
min 1|4/||
max 1|4/||
tallyby 1|a/|b/|b\t1/
totalby 1 2|a\t5/|b\t1/|b\t1/
";

#[test]
fn a_copy_begins_anew(rt: HostRuntime) -> Result<(), Fail> {
    check_copies(&rt, rt.alloc(), COPIES)
}
