// The printed forms are written by hand from the rules of a text.
use super::tables::{expect_told, text_of};
use ff_net::Version;
use ff_rec::NoMemory;
use ff_text::{Described, print_described, print_net, read_net};
use std::alloc::Global;
use std::process::Abort;
use std::test::Fail;

// Texts, and behind a bar their printed forms.
const PRINTED: &str = r#"
pipe( add 01 5 ,id) | pipe(add 1 5, id)
comb(id,neg 1 ,id )# end | comb(id, neg 1, id)
farm 04 rr(id) | farm 4 rr (id)
farm 4294967295od(id) | farm 4294967295 od (id)
ofarm 3 rr(comb(id,neg 1)) | ofarm 3 rr (comb(id, neg 1))
ofarm 2 od ( id ) | ofarm 2 od (id)
a2a 2(id)by 1 3(tally) | a2a 2 (id) by 1 3 (tally)
a2a 2 (id) rr 3 (id) | a2a 2 (id) rr 3 (id)
a2a 2 (id) od 3 (id) | a2a 2 (id) od 3 (id)
wrap 2(id)if 1>-1 | wrap 2 (id) if 1 > -1
wrap 5(id)if 2<=-9 | wrap 5 (id) if 2 <= -9
 \t\nadd  01 5 # last\n | add 1 5
if 1<=-3 | if 1 <= -3
# all\npipe # one (\n(add 1 5,set 2"a,b"\r\n, tally )# | pipe(add 1 5, set 2 "a,b", tally)
pipe(set 1"a b",if 1!=3,farm 2 rr(pipe(id))) | pipe(set 1 "a b", if 1 != 3, farm 2 rr (pipe(id)))
"#;

fn printed(alloc: Global, described: &Described) -> Result<Vec<u8>, NoMemory> {
    let mut text = Vec::new(alloc);
    print_described(described, &mut text)?;
    Ok(text)
}

fn printed_net(alloc: Global, described: &Described) -> Result<Vec<u8>, NoMemory> {
    let mut text = Vec::new(alloc);
    print_net(&described.net, &mut text)?;
    Ok(text)
}

// A network is printed so, with its version too.
fn expect_printed(
    rt: &impl Abort,
    alloc: Global,
    described: &Described,
    want: &[u8],
) -> Result<(), Fail> {
    let net = printed_net(alloc, described)?;
    expect_told(rt, want, &net, want);
    let whole = printed(alloc, described)?;
    expect_told(rt, want, &whole, want);
    Ok(())
}

// A text is read, and printed so.
fn check(rt: &impl Abort, alloc: Global, text: &[u8], want: &[u8]) -> Result<(), Fail> {
    let described = read_net(alloc, text)?;
    expect_printed(rt, alloc, &described, want)
}

// What a column stands for is printed so, and what is printed is itself printed so.
fn check_column(rt: &impl Abort, alloc: Global, column: &str, want: &[u8]) -> Result<(), Fail> {
    let text = text_of(alloc, column)?;
    check(rt, alloc, text.as_bytes(), want)?;
    check(rt, alloc, want, want)
}

#[test]
fn check_prints(rt: HostRuntime) -> Result<(), Fail> {
    let mut tried = 0u64;
    for line in PRINTED.lines() {
        if let Some((column, want)) = line.split_once(" | ") {
            check_column(&rt, rt.alloc(), column, want.as_bytes())?;
            tried = tried.saturating_add(1);
        }
    }
    assert_eq!(&rt; tried, 15);
    Ok(())
}

#[test]
fn version_two_is_printed(rt: HostRuntime) -> Result<(), Fail> {
    let mut described = read_net(rt.alloc(), b"pipe(id,id)")?;
    described.version = Version::Two;
    let text = printed(rt.alloc(), &described)?;
    let want = b"ffrun2 pipe(id, id)";
    expect_told(&rt, want, &text, want);
    Ok(())
}
