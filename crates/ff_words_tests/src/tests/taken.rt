// Words that are commands, and behind a bar the command as it prints. Between two blanks stands an empty word.
pub const TAKEN: &str = r#"
run id | Run { given: Text(Text { text: "id" }), cap: 512, queue: Ring, tasks: 1000000, way: Threads, rejects: None }
run --file net.txt --cap 7 --queue chain --tasks 20 --one --rejects bad.txt | Run { given: File(Text { text: "net.txt" }), cap: 7, queue: Chain, tasks: 20, way: One, rejects: Some(Text { text: "bad.txt" }) }
run -f net.txt --rejects=bad.txt --one --tasks=20 --queue=chain --cap=7 | Run { given: File(Text { text: "net.txt" }), cap: 7, queue: Chain, tasks: 20, way: One, rejects: Some(Text { text: "bad.txt" }) }
run --one --cap 7 -fnet.txt --tasks 20 --rejects bad.txt --queue chain | Run { given: File(Text { text: "net.txt" }), cap: 7, queue: Chain, tasks: 20, way: One, rejects: Some(Text { text: "bad.txt" }) }
run --queue chain -f=net.txt --cap=7 --one --rejects bad.txt --tasks 20 -- | Run { given: File(Text { text: "net.txt" }), cap: 7, queue: Chain, tasks: 20, way: One, rejects: Some(Text { text: "bad.txt" }) }
run id --sweep --cap 1 | Run { given: Text(Text { text: "id" }), cap: 1, queue: Ring, tasks: 1000000, way: Sweep, rejects: None }
mdf id --workers 3 | Mdf { given: Text(Text { text: "id" }), workers: 3 }
mdf --workers 3 id | Mdf { given: Text(Text { text: "id" }), workers: 3 }
mdf --workers=3 -- id | Mdf { given: Text(Text { text: "id" }), workers: 3 }
check -- -x | Check { given: Text(Text { text: "-x" }) }
check -- --help | Check { given: Text(Text { text: "--help" }) }
check -- -- | Check { given: Text(Text { text: "--" }) }
check - | Check { given: Text(Text { text: "-" }) }
plan  | Plan { given: Text(Text { text: "" }) }
plan --file= | Plan { given: File(Text { text: "" }) }
plan help | Plan { given: Text(Text { text: "help" }) }
plan plan | Plan { given: Text(Text { text: "plan" }) }
mdf -f prog | Mdf { given: File(Text { text: "prog" }), workers: 4 }
dc fib 10 | Dc { rule: Fib, n: Some(10), cut: 16, workers: 4 }
dc fib --cut 3 90 --workers 2 | Dc { rule: Fib, n: Some(90), cut: 3, workers: 2 }
dc sum | Dc { rule: Sum, n: None, cut: 16, workers: 4 }
dc maxsub | Dc { rule: MaxSub, n: None, cut: 16, workers: 4 }
dc firstmin --cut=1 | Dc { rule: FirstMin, n: None, cut: 1, workers: 4 }
dc bracket --workers=1 | Dc { rule: Bracket, n: None, cut: 16, workers: 1 }
soak 1000 | Soak { n: 1000, workers: 4, cap: 512, queue: Ring }
soak --workers 16 --cap 1 --queue chain 0 | Soak { n: 0, workers: 16, cap: 1, queue: Chain }
soak 0 --cap 1 | Soak { n: 0, workers: 4, cap: 1, queue: Ring }
soak 10000000 --cap 4096 | Soak { n: 10000000, workers: 4, cap: 4096, queue: Ring }
soak 1 --workers 1 | Soak { n: 1, workers: 1, cap: 512, queue: Ring }
mdf a --workers 64 | Mdf { given: Text(Text { text: "a" }), workers: 64 }
dc fib 0 --cut 1 | Dc { rule: Fib, n: Some(0), cut: 1, workers: 4 }
dc fib 1000000 --cut 1000000 | Dc { rule: Fib, n: Some(1000000), cut: 1000000, workers: 4 }
run a --tasks 10000000 | Run { given: Text(Text { text: "a" }), cap: 512, queue: Ring, tasks: 10000000, way: Threads, rejects: None }
run a --tasks 1 | Run { given: Text(Text { text: "a" }), cap: 512, queue: Ring, tasks: 1, way: Threads, rejects: None }
"#;
