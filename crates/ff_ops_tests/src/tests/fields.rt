// Operations on the bytes of fields.
use super::runs::{check_run, check_runs};
use std::test::Fail;

const RUNS: &str = "\
id|a\tb//|a\tb//|
keep 2|a\tb\tc/a\t/a/|b//|a/
drop 1|a\tb\tc/a\tb/a/|b\tc/b/|a/
drop 3|a\tb/||a\tb/
swap 3 1|a\tbb\tccc/a\tb/|ccc\tbb\ta/|a\tb/
swap 1 3|a\tbb\tccc/a/|ccc\tbb\ta/|a/
swap 2 2|a\tb/|a\tb/|
copy 1|a\tb//|a\tb\ta/\t/|
copy 3|a\tb/||a\tb/
set 2 \"new_text\"|a\tb\tc/a/|a\tnew_text\tc/|a/
len 1|abc\tx//é/|3\tx/0/2/|
len 2|abc/||abc/
upper 2|q\t@azAZ`{é9/q/|q\t@AZAZ`{é9/|q/
lower 2|Q\t@azAZ[`é9/Q/|Q\t@azaz[`é9/|Q/
ifeq 2 \"ab\"|x\tab/ab\tabc/x\ta/ab/|x\tab/|ab/
has 1 \"aab\"|xaaabx\tq/aab/aaxb/aa\tb/|xaaabx\tq/aab/|
has 2 \"\"|a\t/a\tb/a/|a\t/a\tb/|a/
words 1|  to be  or\tx/one//   /|to/be/or/one/|
words 2|a b/||a b/
dup 1|a\tb/|a\tb/|
dup 3|a\tb/|a\tb/a\tb/a\tb/|
";

#[test]
fn fields_become_others(rt: HostRuntime) -> Result<(), Fail> {
    check_runs(&rt, rt.alloc(), RUNS)
}

// A record of 64 fields takes no further one.
#[test]
fn a_full_record_is_rejected(rt: HostRuntime) -> Result<(), Fail> {
    let mut full = String::new(rt.alloc());
    for _ in 0..63 {
        full.push('\t')?;
    }
    full.push('/')?;
    check_run(&rt, rt.alloc(), "copy 1", &full, "", &full)?;
    check_run(&rt, rt.alloc(), "number", &full, "", &full)
}
