// Operations that send at the end alone.
use super::runs::check_runs;
use std::test::Fail;

const RUNS: &str = "\
tally||0/|
tally|a\tb//x/|3/|
total 1||0/|
total 2|a\t5/b\t-7/c\t1/|-1/|
total 2|a\t5/b/c\tx/|5/|b/c\tx/
total 1|9223372036854775807/9223372036854775807/|18446744073709551614/|
total 1|-9223372036854775808/-9223372036854775808/|-18446744073709551616/|
min 1|||
min 1|x//||x//
min 1|4/-2\tz/3/|-2/|
min 1|9223372036854775807/-9223372036854775808/0/|-9223372036854775808/|
max 1|-4/-2/-3/|-2/|
max 3|1\t2/1\t2\t+3/|3/|1\t2/
max 1|-9223372036854775808/9223372036854775807/0/|9223372036854775807/|
tallyby 1|||
tallyby 1|b/a\tx/b\ty//ab/|\t1/a\t1/ab\t1/b\t2/|
tallyby 2|k\tb/k/k\tb/k\ta/|a\t1/b\t2/|k/
totalby 1 2|||
totalby 1 2|b\t5/a\t-7/b\t+1/c\tx/d/|a\t-7/b\t6/|c\tx/d/
totalby 2 1|1/2\tk/3\tk/|k\t5/|1/
totalby 1 1|7/7/x/|7\t14/|x/
totalby 1 2|k\t9223372036854775807/k\t9223372036854775807/|k\t18446744073709551614/|
";

#[test]
fn folds_send_at_the_end(rt: HostRuntime) -> Result<(), Fail> {
    check_runs(&rt, rt.alloc(), RUNS)
}
