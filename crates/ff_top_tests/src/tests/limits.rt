// Lines at their limits, and the longest pipelines.
use super::{SOUND, check_table};
use std::test::Fail;

const LIMITS: &str = r#"
// A line may have 65,536 bytes.
run 'len 1' | \[65536 a]\n | 0 | 65536\n |
run 'len 1' | \[65536 a] | 0 | 65536\n |
run 'len 1' | x\n\[65537 a]\nyy\n | 3 | 1\n | ffrun: line 2: too long\n
run 'len 1' | \[65537 a] | 3 |  | ffrun: line 1: too long\n
run 'len 1' | a\n\nbb\n\[65537 a]\n | 3 | 1\n0\n2\n | ffrun: line 4: too long\n
// lines of 65 fields
run --tasks 5 id | \[64 \t]\n1\n | 3 |  | ffrun: line 1: too many fields\n
// What was rejected before the limit is told.
run --tasks 5 'add 1 1' | 1\nx\n\[64 \t]\n2\n | 3 | 2\n | ffrun: line 3: too many fields\nffrun: 1 rejected\n
// What an operation that has ended doesn't take has limits all the same.
run --tasks 5 'take 1' | 1\n\[64 \t]\n | 3 | 1\n | ffrun: line 2: too many fields\n
run --tasks 5 'wrap 2 (halve 1) if 1 > 1' | x\n2\n\[64 \t]\n | 3 | 1\n1\n | ffrun: line 3: too many fields\nffrun: 1 rejected\n
// Tasks are told before limits.
run --tasks 5 'wrap 2 (halve 1) if 1 > 1' | 5\n5\n\[64 \t]\n | 3 |  | ffrun: more than 5 tasks\n
// a line of 64 fields
run 'add 64 1' | \[63 7\t]7 | 0 | \[63 7\t]8\n |
run 'add 1 1' | \[63 7\t]7 | 0 | 8\t\[62 7\t]7\n |
// a record 64 times
run 'dup 64' | x\n | 0 | \[64 x\n] |
// pipelines of 64 and 65 parts
run 'pipe(add 1 1\[62 , add 1 1], id)' | 0\n | 0 | 63\n |
run 'pipe(add 1 1\[63 , add 1 1], id)' | 0\n | 2 |  | ffrun: rule N2 at top\n
// a pipeline of 65 nodes, which are more than a comb may have
run 'pipe(pipe(add 1 1\[32 , add 1 1]), pipe(add 1 1\[31 , add 1 1]))' | 1\nx\n | 0 | 66\n | ffrun: 1 rejected\n
"#;

#[test]
fn limits_by_tables(rt: HostRuntime) -> Result<(), Fail> {
    check_table(&rt, rt.alloc(), LIMITS, SOUND)
}
