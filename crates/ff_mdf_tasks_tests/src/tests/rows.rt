// Programs with what they put out, worked out by hand.
use super::told::check_lines;
use std::test::Fail;

// A program, how many tasks it has, and what it puts out.
const ROWS: &str = "
a = copy 1; b = add a 1; a = copy 10; c = add a b; out a b c | 4 | a 10;b 2;c 12;
q r = divmod 7 2; z = div q 0; w = add z 1; out q r w | 3 | q 3;r 1;w bad;
a = copy 1; a = add a a; a = add a a; out a | 3 | a 4;
a = copy 1; a b = divmod a 1; out b a | 2 | b 0;a 1;
a b = divmod 7 2; b a = divmod a b; out a b | 2 | a 0;b 3;
a = copy 1; b = copy 2; c = copy a; a = copy b; b = copy c; out a b | 5 | a 2;b 1;
x = pick 0 1 2; out x | 1 | x 2;
a = copy 0; b = copy 5; c = pick a b 6; a = copy 1; d = pick a b 6; out c d | 5 | c 6;d 5;
a = copy 3; b = neg a; c = mul a b; d = sub c a; e = min d b; out e d c | 5 | e -12;d -12;c -9;
a = copy 7; a = copy 8; b = copy 9; out a | 3 | a 8;
";

#[test]
fn programs_by_threads(rt: HostRuntime) -> Result<(), Fail> {
    let tried = check_lines(&rt, rt.alloc(), ROWS)?;
    assert_eq!(&rt; tried, 10);
    Ok(())
}
