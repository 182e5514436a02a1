// Operations on numbers: an ordinary record, each cause of a reject, and the borders of 64 bits.
use super::runs::{check_run, check_runs};
use std::test::Fail;

const RUNS: &str = "\
add 2 5|a\t+01\tc/|a\t6\tc/|
add 1 -1|9223372036854775807/|9223372036854775806/|
add 1 1|9223372036854775807/x/2/|3/|9223372036854775807/x/
sub 1 7|5\tx/|-2\tx/|
sub 1 -9223372036854775808|-1/+0/|9223372036854775807/|+0/
plus 1 3|2\tx\t-7/1\t2/|-5\tx\t-7/|1\t2/
plus 3 1|2\tx\t-7/|2\tx\t-5/|
plus 1 1|2/|4/|
plus 1 2|-9223372036854775808\t-1/1\tx/||-9223372036854775808\t-1/1\tx/
mul 1 -3|5/|-15/|
mul 1 -1|-9223372036854775808/||-9223372036854775808/
mul 1 2|4611686018427387904/||4611686018427387904/
div 1 2|-7/|-3/|
div 1 -2|7/|-3/|
div 1 -1|-9223372036854775808/||-9223372036854775808/
rem 1 2|-7/|-1/|
rem 1 -2|7/|1/|
rem 1 -1|-9223372036854775808/|0/|
neg 1|-0/9223372036854775807/-9223372036854775808/|0/-9223372036854775807/|-9223372036854775808/
if 1 < -3|-4/-03/+2/|-4/|
if 1 <= -3|-4/-03/+2/|-4/-03/|
if 1 = -3|-4/-03/+2/|-03/|
if 1 != -3|-4/-03/+2/|-4/+2/|
if 1 >= -3|-4/-03/+2/|-03/+2/|
if 1 > -3|-4/-03/+2/|+2/|
halve 2|a\t7/\t-7\t/a\t0/|a\t3/a\t4/\t-4\t/\t-3\t/a\t0/a\t0/|
halve 1|-1/9223372036854775807/-9223372036854775808/|\
    -1/0/4611686018427387903/4611686018427387904/-4611686018427387904/-4611686018427387904/|
";

#[test]
fn numbers_become_others(rt: HostRuntime) -> Result<(), Fail> {
    check_runs(&rt, rt.alloc(), RUNS)
}

// Each rejects a record whose field is missing or isn't a number of 64 bits.
#[test]
fn records_without_a_number(rt: HostRuntime) -> Result<(), Fail> {
    let taken = "1/1\t/1\t2x/1\t9223372036854775808/";
    let ops =
        "add 2 1|sub 2 1|mul 2 1|div 2 1|rem 2 1|neg 2|if 2 != 1|halve 2|plus 2 1|runsum 2|delta 2|min 2|max 2|\
        totalby 1 2";
    for op in ops.split('|') {
        check_run(&rt, rt.alloc(), op, taken, "", taken)?;
    }
    Ok(())
}
