// Each operation by its text: an ordinary record, and each cause of a reject.
/// Calls with one operation.
pub const OPERATIONS: &str = r#"
// numbers
run 'add 1 1' | 1\n9223372036854775807\n\n | 0 | 2\n | ffrun: 2 rejected\n
run 'sub 2 -1' | a\t1\na\n | 0 | a\t2\n | ffrun: 1 rejected\n
run 'mul 1 -1' | 3\n-9223372036854775808\n | 0 | -3\n | ffrun: 1 rejected\n
run 'div 1 -1' | 7\n-9223372036854775808\n | 0 | -7\n | ffrun: 1 rejected\n
run 'div 1 2' | 7\n-7\n | 0 | 3\n-3\n |
run 'rem 1 -1' | -9223372036854775808\nx\n | 0 | 0\n | ffrun: 1 rejected\n
run 'rem 1 2' | 7\n-7\n | 0 | 1\n-1\n |
run 'neg 1' | +07\n-0\n-9223372036854775808\n | 0 | -7\n0\n | ffrun: 1 rejected\n
run 'plus 1 2' | 2\t3\n9223372036854775807\t1\n1\n | 0 | 5\t3\n | ffrun: 2 rejected\n
run 'halve 1' | 5\n-5\n-9223372036854775808\nx\n | 0 | 2\n3\n-3\n-2\n-4611686018427387904\n-4611686018427387904\n | ffrun: 1 rejected\n
run 'if 1 != 2' | 1\n2\n3\nx\n | 0 | 1\n3\n | ffrun: 1 rejected\n
// fields
run 'id' | a\t\n\n | 0 | a\t\n\n |
run 'set 2 "x y"' | a\tb\na\n | 0 | a\tx y\n | ffrun: 1 rejected\n
run 'keep 2' | a\tb\na\n | 0 | b\n | ffrun: 1 rejected\n
run 'drop 1' | a\tb\na\n | 0 | b\n | ffrun: 1 rejected\n
run 'swap 1 2' | a\tb\na\n | 0 | b\ta\n | ffrun: 1 rejected\n
run 'copy 2' | a\tb\na\n | 0 | a\tb\tb\n | ffrun: 1 rejected\n
run 'len 1' | abc\n\n | 0 | 3\n0\n |
run 'len 2' | abc\n | 0 |  | ffrun: 1 rejected\n
run 'upper 2' | a\taZ9\na\n | 0 | a\tAZ9\n | ffrun: 1 rejected\n
run 'lower 1' | aZ9\n | 0 | az9\n |
run 'ifeq 2 "b"' | a\tb\na\tbb\na\n | 0 | a\tb\n | ffrun: 1 rejected\n
run 'has 1 ""' | \na\n | 0 | \na\n |
run 'has 2 "aa"' | x\tbaab\nx\taba\nx\n | 0 | x\tbaab\n | ffrun: 1 rejected\n
run 'words 1' | \s  \n a  b\n | 0 | a\nb\n |
run 'words 2' | a\n | 0 |  | ffrun: 1 rejected\n
// the order of the records
run 'number' | a\n\n | 0 | 1\ta\n2\t\n |
run 'runsum 1' | 9223372036854775807\n1\n-1\nx\n | 0 | 9223372036854775807\n9223372036854775806\n | ffrun: 2 rejected\n
run 'delta 1' | 10\nx\n7\n | 0 | 10\n-3\n | ffrun: 1 rejected\n
run 'take 1' | a\nb\n | 0 | a\n |
run 'skip 0' | a\nb\n | 0 | a\nb\n |
run 'skip 1' | a\nb\n | 0 | b\n |
run 'uniq 1' | a\na\nb\na\n | 0 | a\nb\na\n |
run 'uniq 2' | x\ta\ny\nz\ta\n | 0 | x\ta\n | ffrun: 1 rejected\n
// the end
run 'tally' | a\n\nb | 0 | 3\n |
run 'total 1' | 9223372036854775807\n9223372036854775807\n-1\nx\n | 0 | 18446744073709551613\n | ffrun: 1 rejected\n
run 'min 1' | 5\n-7\nx\n | 0 | -7\n | ffrun: 1 rejected\n
run 'max 1' | x\n | 0 |  | ffrun: 1 rejected\n
run 'max 1' | 5\n-7\n | 0 | 5\n |
run 'tallyby 2' | x\tb\ny\ta\nz\tb\nw\n | 0 | a\t1\nb\t2\n | ffrun: 1 rejected\n
run 'totalby 1 2' | b\t1\na\t5\nb\t2\nc\n | 0 | a\t5\nb\t3\n | ffrun: 1 rejected\n
// copies
run 'dup 1' | x\ty\n | 0 | x\ty\n |
// no records
run 'id' |  | 0 |  |
run 'tally' |  | 0 | 0\n |
run 'min 1' |  | 0 |  |
run 'tallyby 1' |  | 0 |  |
run 'total 1' |  | 0 | 0\n |
run 'pipe(id, tally, add 1 1)' |  | 0 | 1\n |
// lines that are no number
run 'add 1 1' | 9223372036854775807\nx\n3 | 0 | 4\n | ffrun: 2 rejected\n
run 'add 1 1' | \n\n1\n\n | 0 | 2\n | ffrun: 3 rejected\n
run 'add 1 1' | \n | 0 |  | ffrun: 1 rejected\n
run 'add 1 1' | \s1\n1 \n1\r\n--1\n+\n | 0 |  | ffrun: 5 rejected\n
"#;
