// Programs with what they put out, worked out by hand.
use super::told::check_lines;
use std::test::Fail;

const ROWS: &str = "
a = copy 1; b = add a 1; a = copy 10; c = add a b; out a b c | a 10;b 2;c 12;
q r = divmod 7 2; z = div q 0; w = add z 1; out q r w | q 3;r 1;w bad;
b = add a 1; out b | Rule { rule: 3, statement: 1 }
a = copy 1; a = add a a; a = add a a; out a | a 4;
a = copy 1; a b = divmod a 1; out b a | b 0;a 1;
a b = divmod 7 2; b a = divmod a b; out a b | a 0;b 3;
a = copy 1; b = copy 2; c = copy a; a = copy b; b = copy c; out a b | a 2;b 1;
a = copy -0; b = copy 007; out b a | b 7;a 0;
";

#[test]
fn mdf_rows(rt: HostRuntime) -> Result<(), Fail> {
    let tried = check_lines(&rt, rt.alloc(), ROWS)?;
    assert_eq!(&rt; tried, 8);
    Ok(())
}

// Each operation in the middle and at the ends of 64 bits.
const VALUES: &str = "
x = copy -9223372036854775808; out x | x -9223372036854775808;
x = neg 5; out x | x -5;
x = neg -9223372036854775807; out x | x 9223372036854775807;
x = neg -9223372036854775808; out x | x bad;
x = add 9223372036854775807 -1; out x | x 9223372036854775806;
x = add 9223372036854775807 1; out x | x bad;
x = add -9223372036854775808 -1; out x | x bad;
x = sub -9223372036854775808 -1; out x | x -9223372036854775807;
x = sub -9223372036854775808 1; out x | x bad;
x = sub 0 -9223372036854775808; out x | x bad;
x = mul 4611686018427387904 -2; out x | x -9223372036854775808;
x = mul 4611686018427387904 2; out x | x bad;
x = mul -9223372036854775808 -1; out x | x bad;
x = div 7 2; out x | x 3;
x = div -7 2; out x | x -3;
x = div 7 -2; out x | x -3;
x = div 1 0; out x | x bad;
x = div -9223372036854775808 -1; out x | x bad;
x = div -9223372036854775808 1; out x | x -9223372036854775808;
x = rem 7 2; out x | x 1;
x = rem -7 2; out x | x -1;
x = rem 7 -2; out x | x 1;
x = rem 1 0; out x | x bad;
x = rem -9223372036854775808 -1; out x | x 0;
x = rem -9223372036854775808 9223372036854775807; out x | x -1;
x = min -9223372036854775808 9223372036854775807; out x | x -9223372036854775808;
x = max -9223372036854775808 9223372036854775807; out x | x 9223372036854775807;
x = pick 0 1 2; out x | x 2;
x = pick -1 1 2; out x | x 1;
x y = divmod -9223372036854775808 -1; out x y | x bad;y 0;
x y = divmod -7 2; out x y | x -3;y -1;
x y = divmod 7 0; out x y | x bad;y bad;
z = div 1 0; x = copy z; out x | x bad;
z = div 1 0; x = neg z; out x | x bad;
z = div 1 0; x = mul z 0; out x | x bad;
z = div 1 0; x = min 1 z; out x | x bad;
z = div 1 0; x = pick 0 z 2; out x | x bad;
z = div 1 0; x = pick 1 2 z; out x | x bad;
z = div 1 0; x y = divmod z 2; out x y | x bad;y bad;
";

#[test]
fn values(rt: HostRuntime) -> Result<(), Fail> {
    let tried = check_lines(&rt, rt.alloc(), VALUES)?;
    assert_eq!(&rt; tried, 39);
    Ok(())
}
