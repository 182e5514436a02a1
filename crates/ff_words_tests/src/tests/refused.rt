// Words that are no command, and behind a bar what is answered. Between two blanks stands an empty word.
pub const REFUSED: &str = r#"
// another first word
 | Usage
Run id | Usage
runs id | Usage
ru id | Usage
stencil smooth | Usage
help | Usage
--help | Usage
-f run id | Usage
id run | Usage
// not just one of text and file
run | Usage
run -- | Usage
run --one | Usage
run id -f net.txt | Usage
run -f net.txt id | Usage
check | Usage
check id --file= | Usage
plan | Usage
plan -f a -- b | Usage
mdf | Usage
mdf a -f b | Usage
// two ways of a run
run id --one --sweep | Usage
run --sweep id --one | Usage
run id --sweep --sweep | Usage
soak 1 --sweep | Usage
// help and version
run --help | Usage
run -h | Usage
run id -h | Usage
run --version | Usage
run -V | Usage
soak 1 --help | Usage
// an unknown option, or another command's
run -x | Usage
run id --cape 5 | Usage
run id --ca 5 | Usage
check id --cap 5 | Usage
plan id --one | Usage
mdf id --cap 5 | Usage
dc sum --queue ring | Usage
soak 1 -f x | Usage
run id -1 | Usage
// an option twice
run id --one --one | Usage
run id --cap 5 --cap 5 | Usage
run -f a --file a | Usage
// an option without its value, and a flag with one
run id --cap | Usage
run id --cap --one | Usage
run -f | Usage
run id --one=true | Usage
// a word too many
run id id | Usage
check id -- id | Usage
dc fib 3 4 | Usage
dc sum - - | Usage
soak 1 1 | Usage
// rules and queues that there are not
run id --queue Ring | Usage
run id --queue= | Usage
run id --queue rings | Usage
soak 1 --queue list | Usage
dc | Usage
dc 10 | Usage
dc fibs 10 | Usage
dc Sum | Usage
dc --  | Usage
// an operand that is missing or too many
dc fib | Usage
dc sum 3 | Usage
dc maxsub 0 | Usage
dc firstmin x | Usage
dc bracket 1 | Usage
dc fib x | Usage
soak | Usage
soak x | Usage
// numbers beyond their limits
run a --cap 0 | Usage
run a --cap 4097 | Usage
run a --tasks 0 | Usage
run a --tasks 10000001 | Usage
mdf a --workers 0 | Usage
mdf a --workers 65 | Usage
dc fib 1000001 | Usage
dc sum --cut 0 | Usage
dc sum --cut 1000001 | Usage
dc sum --workers 0 | Usage
dc sum --workers 65 | Usage
soak 10000001 | Usage
soak 1 --workers 0 | Usage
soak 1 --workers 17 | Usage
soak 1 --cap 0 | Usage
soak 1 --cap 4097 | Usage
soak 9223372036854775808 | Usage
soak 18446744073709551616 | Usage
run a --cap 4294967297 | Usage
// a number is digits without a zero in front
run a --cap 007 | Usage
run a --cap +5 | Usage
run a --cap=-5 | Usage
run a --cap -5 | Usage
run a --cap= | Usage
run a --cap 5x | Usage
run a --cap x5 | Usage
run a --cap 5. | Usage
run a --cap 0x5 | Usage
soak 00 | Usage
soak 01 | Usage
soak +1 | Usage
soak -- -1 | Usage
dc fib 00 | Usage
dc fib 5é | Usage
soak 1_000 | Usage
"#;
