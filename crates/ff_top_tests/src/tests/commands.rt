// Words that are a command, and words that aren't.
/// Calls by their words.
pub const COMMANDS: &str = r#"
// words that run
run 'add 1 5' --one | 1\n | 0 | 6\n |
run --cap 1 'add 1 5' | 1\n | 0 | 6\n |
run --cap=4096 --queue=chain 'add 1 5' | 1\n | 0 | 6\n |
run --tasks 10000000 -- 'add 1 5' | 1\n | 0 | 6\n |
// words that are no command
 | 1\n | 1 |  | ffrun: usage: run, check, plan, mdf, dc or soak\n
walk id | 1\n | 1 |  | ffrun: usage: run, check, plan, mdf, dc or soak\n
run | 1\n | 1 |  | ffrun: usage: run, check, plan, mdf, dc or soak\n
run id -f net.txt | 1\n | 1 |  | ffrun: usage: run, check, plan, mdf, dc or soak\n
run id --cap 4097 | 1\n | 1 |  | ffrun: usage: run, check, plan, mdf, dc or soak\n
run id --cap 007 | 1\n | 1 |  | ffrun: usage: run, check, plan, mdf, dc or soak\n
run id --help | 1\n | 1 |  | ffrun: usage: run, check, plan, mdf, dc or soak\n
stencil smooth | 1\n | 1 |  | ffrun: usage: run, check, plan, mdf, dc or soak\n
// plans
plan id | 1\n | 0 | 0 stage 0 > 1 : id\n |
plan 'pipe(add 1 5, farm 2 rr (id))' | 1\n | 0 | 0 stage 0 > 2 : add 1 5\n1 deal-rr 2 > 3 4\n2 stage 3 > 5 : id\n3 stage 4 > 6 : id\n4 merge 5 6 > 1\n |
plan 'wrap 2 (halve 1) if 1 > 1' | 1\n | 0 | 0 master 0 4 5 > 2 3 1\n1 worker 2 > 4 : halve 1\n2 worker 3 > 5 : halve 1\n |
plan 'ofarm 2 od (id)' | 1\n | 0 | 0 odeal-od 0 > 2 3 6\n1 stage 2 > 4 : id\n2 stage 3 > 5 : id\n3 omerge-pick 4 5 6 > 1\n |
plan 'a2a 1 (id) by 1 2 (tallyby 1)' | 1\n | 0 | 0 deal-rr 0 > 2\n1 stage 2 > 3 : id\n2 deal-by-1 3 > 4 5\n3 merge 4 > 6\n4 merge 5 > 7\n5 stage 6 > 8 : tallyby 1\n6 stage 7 > 9 : tallyby 1\n7 merge 8 9 > 1\n |
plan 'id id' | 1\n | 2 |  | ffrun: byte 3: unexpected token\n
// soaks, which read nothing
soak 0 | 1\n | 0 | records 0\nkeys 0\ntotal 0\n |
soak 3 | 1\n | 0 | records 3\nkeys 3\ntotal 5106\n |
soak --workers 1 --cap 1 5 | 1\n | 0 | records 5\nkeys 5\ntotal 6765\n |
soak --workers 17 5 | 1\n | 1 |  | ffrun: usage: run, check, plan, mdf, dc or soak\n
// commands that are not built
dc fib 10 | 1\n | 2 |  | ffrun: not built\n
"#;
