// Operations for which the order of the records matters.
use super::runs::check_runs;
use std::test::Fail;

const RUNS: &str = "\
number|a//b\tc/|1\ta/2\t/3\tb\tc/|
runsum 1|1/x/+2\tk/-7/|1/3\tk/-4/|x/
runsum 2|a/a\t1/|a\t1/|a/
runsum 1|9223372036854775807/1/-1/|9223372036854775807/9223372036854775806/|1/
delta 1|10/x/7/7/|10/-3/0/|x/
delta 1|-2/9223372036854775807/-1/|-2/1/|9223372036854775807/
take 2|a/b/c/|a/b/|
take 1|a/b/|a/|
take 3|a/|a/|
skip 2|a/b/c/d/|c/d/|
skip 0|a/|a/|
uniq 1|a/a\t1/b/a/|a/b/a/|
uniq 2|a\t/a/b\t/b\tx/|a\t/b\tx/|a/
";

#[test]
fn states_go_with_the_records(rt: HostRuntime) -> Result<(), Fail> {
    check_runs(&rt, rt.alloc(), RUNS)
}
