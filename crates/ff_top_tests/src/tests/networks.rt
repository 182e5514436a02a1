// Pipelines, combs, farms, ordered farms, all-to-alls and feedback.
/// Networks whose records have one order.
pub const ORDERED: &str = r#"
// pipelines
// The first part sends 2, 3 and 5 and rejects `z`, which stands behind the two records that `take` needs.
run 'pipe(add 1 1, take 2, total 1)' | 1\n2\nz\n4\n | 0 | 5\n | ffrun: 1 rejected\n
// The last record of a part goes through the parts behind it.
run 'pipe(total 1, add 1 1)' | 1\n2\n | 0 | 4\n |
// A part that has ended drops what comes, and nothing of it is rejected.
run 'pipe(take 1, add 1 1)' | 1\nx\n | 0 | 2\n |
run 'pipe(words 1, if 1 > 1, number)' | 1 2\n3\n | 0 | 1\t2\n2\t3\n |
run 'pipe(skip 1, uniq 1)' | b\na\na\n | 0 | a\n |
run 'pipe(halve 1, add 1 9223372036854775807)' | x\n5\n | 0 |  | ffrun: 3 rejected\n
// combs
// A comb passes the last record of a part on.
run 'comb(total 1, add 1 1)' | 1\n2\n | 0 | 4\n |
// A middle part ends by itself, and drops what comes; the part before it goes on and rejects.
run 'comb(add 1 1, take 2, total 1)' | 1\n2\nz\n4\n | 0 | 5\n | ffrun: 1 rejected\n
run 'pipe(add 1 1, take 2, total 1)' | 1\n2\nz\n4\n | 0 | 5\n | ffrun: 1 rejected\n
// Where the first part ends, the others see no more records, but the end.
run 'comb(take 2, add 1 1, total 1)' | 1\n2\nz\n4\n | 0 | 5\n |
run 'comb(number, swap 1 2, totalby 1 2, sub 2 1)' | b\na\nb\n | 0 | a\t1\nb\t3\n |
run 'comb(tallyby 1)' | b\na\nb\n | 0 | a\t1\nb\t2\n |
// ordered farms
// Words through an ordered farm.
run 'pipe(words 1, ofarm 3 rr (upper 1))' | a b\n\nc\n | 0 | A\nB\nC\n |
// An ordered farm with a filter.
run 'ofarm 3 rr (if 1 < 3)' | 5\n1\n4\n2\n | 0 | 1\n2\n |
// An on-demand ordered farm doubles.
run 'ofarm 2 od (dup 2)' | x\ny\n | 0 | x\nx\ny\ny\n |
// An on-demand ordered farm of pipes.
run 'ofarm 3 od (pipe(words 1, if 1 > 1))' | 1 2\n3\n\n2 9\n | 0 | 2\n3\n2\n9\n |
// An ordered part may stand behind an ordered farm, and a worker may reject.
run 'pipe(ofarm 64 rr (comb(words 1, add 1 1)), runsum 1, number)' | 1 2\nx\n3\n | 0 | 1\t2\n2\t5\n3\t9\n | ffrun: 1 rejected\n
// What a fold sends is one line, so that it has one order behind any network.
run 'pipe(farm 4 rr (mul 1 3), a2a 2 (id) od 3 (neg 1), total 1)' | 1\n2\n3\n4\n | 0 | -30\n |
run 'pipe(pipe(id), pipe(pipe(dup 2)))' | a\n | 0 | a\na\n |
run 'ofarm 2 rr (neg 1)' |  | 0 |  |
"#;

/// Networks whose records may come in any order.
pub const ANY_ORDER: &str = r#"
// farms and all-to-alls
// An on-demand farm.
run 'farm 3 od (add 1 1)' | 1\n1\n2\n | 0 | 2\n2\n3\n |
// Words counted by key.
run 'a2a 2 (words 1) by 1 2 (tallyby 1)' | a b\na\n | 0 | a\t2\nb\t1\n |
// An on-demand all-to-all.
run 'a2a 2 (id) od 3 (add 1 1)' | 1\n1\n4\n | 0 | 2\n2\n5\n |
// Word count.
run 'pipe(words 1, lower 1, a2a 4 (id) by 1 4 (tallyby 1))' | The cat saw the dog\nthe end\n | 0 | cat\t1\ndog\t1\nend\t1\nsaw\t1\nthe\t3\n |
// sets and farms inside others
// The right nodes see each record once, and what both sets reject is counted.
run 'a2a 3 (halve 1) rr 2 (add 1 9223372036854775807)' | 1\nx\n0\n | 0 | 9223372036854775807\n9223372036854775807\n9223372036854775807\n | ffrun: 2 rejected\n
// A key field that is missing rejects nothing on the way.
run 'a2a 1 (id) by 2 3 (id)' | a\n\tb\nc\td\n | 0 | a\n\tb\nc\td\n |
// Farms in farms and in pipes.
run 'pipe(farm 2 rr (farm 3 od (pipe(neg 1, ofarm 2 od (dup 2)))), if 1 < 0)' | 5\n0\nx\n6\n | 0 | -5\n-5\n-6\n-6\n | ffrun: 1 rejected\n
run 'farm 2 rr (a2a 2 (words 1) by 1 2 (upper 1))' | a b\nc\n | 0 | A\nB\nC\n |
// feedback within its limit
// Halving to ones: the levels are 5; 2 and 3; 2. Together these are 4 tasks.
run --tasks 1000000 'wrap 2 (halve 1) if 1 > 1' | 5\n | 0 | 1\n1\n1\n1\n1\n |
run --tasks 4 'wrap 2 (halve 1) if 1 > 1' | 5\n | 0 | 1\n1\n1\n1\n1\n |
// Each record that is fed is a task, whether it meets the test or not.
run --tasks 10 'wrap 1 (id) if 1 > 5' | 3\n | 0 | 3\n |
// A tally behind a wrap.
run --tasks 2 'pipe(wrap 2 (id) if 1 > 5, tally)' | 1\n2\n | 0 | 2\n |
// No level has results but the last one.
run --tasks 7 'wrap 3 (halve 1) if 1 >= 2' | 8\n | 0 | 1\n1\n1\n1\n1\n1\n1\n1\n |
// The tasks of each wrap are counted for itself: 3, and 4.
run --tasks 4 'pipe(wrap 1 (halve 1) if 1 > 1, wrap 1 (id) if 1 > 1)' | 4\n | 0 | 1\n1\n1\n1\n |
run --tasks 1 'wrap 1 (id) if 1 = 1' |  | 0 |  |
// records without what the test reads
// A rejected record is a task, and goes no further.
run --tasks 4 'wrap 2 (comb(add 1 -1, id)) if 1 > 0' | x\n2\n1\n | 0 | 0\n0\n | ffrun: 1 rejected\n
// A sent record without the field, or without a number in it, is a result.
run --tasks 3 'pipe(wrap 4 (words 1) if 2 != 7, id)' | a b\n\n7\n | 0 | a\nb\n7\n |
run --tasks 3 'pipe(wrap 4 (words 1) if 1 > 7, id)' | a b\n\n7\n | 0 | a\nb\n7\n |
"#;

/// Feedback beyond its limit of tasks.
pub const BEYOND: &str = r#"
run --tasks 3 'wrap 2 (halve 1) if 1 > 1' | 5\n | 3 |  | ffrun: more than 3 tasks\n
run --tasks 10 'wrap 1 (id) if 1 > 5' | 9\n | 3 |  | ffrun: more than 10 tasks\n
run --tasks 2 'pipe(wrap 2 (id) if 1 > 5, tally)' | 1\n2\n3\n | 3 |  | ffrun: more than 2 tasks\n
// The first wrap is within the limit, and the second isn't.
run --tasks 1 'pipe(wrap 1 (dup 2) if 1 > 1, wrap 1 (id) if 1 > 1)' | 1\n | 3 |  | ffrun: more than 1 tasks\n
// A rejected record is a task, and what was rejected is not told.
run --tasks 1 'wrap 1 (add 1 1) if 1 < 0' | x\n1\n | 3 |  | ffrun: more than 1 tasks\n
"#;
