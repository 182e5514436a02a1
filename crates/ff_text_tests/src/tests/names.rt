// What no clause says: that networks are read while memory is there. The texts and places are counted by hand.
ghost use Rattle.std.specs.Prelude.{OnOk, IfOk};
ghost use Rattle.ff_text.specs.Names.{AreNets};
ghost use Rattle.ff_text.specs.Seen.{names_of};

use super::tables::expect_told;
use ff_net::{Net, Version};
use ff_ops::Op;
use ff_text::{
    Context, Described, NamedNet, ReadFault, Reader, Token, network_ahead, print_net, read_net,
};
use std::alloc::Global;
use std::process::Abort;
use std::test::Fail;

// Lets a word stand for the network of a text of version One.
fn let_stand(alloc: Global, context: &mut Context, word: &[u8], text: &[u8]) -> Result<(), Fail>
    requires { AreNets (names_of context.old) }
    ensures { OnOk result (AreNets (names_of context.new)) }
{
    let Described { version: _, net } = read_net(alloc, text)?;
    let word = word.to_vec(alloc)?;
    context.name(NamedNet { word, net })?;
    Ok(())
}

// A network that is read to the end of its text, printed.
fn shown(alloc: Global, net: &Net<Op>, reader: &Reader) -> Result<String, Fail> {
    if reader.peek().token != Token::Stop {
        return Err("it isn't read to its end".into());
    }
    let mut text = Vec::new(alloc);
    print_net(net, &mut text)?;
    Ok(String::from_utf8(text).map_err(|_| "no text")?)
}

// The network of a text, printed, or the place and the kind of its first fault.
fn told(alloc: Global, context: &Context, room: usize, text: &[u8]) -> Result<String, Fail>
    requires { AreNets (names_of context.now) }
{
    let mut reader = Reader::new(text);
    match network_ahead(alloc, context, room, &mut reader) {
        Ok(net) => shown(alloc, &net, &reader),
        Err(ReadFault::Text { at, kind }) => Ok(format!(in alloc; "{at} {kind:?}")?),
        Err(fault) => Ok(format!(in alloc; "{fault:?}")?),
    }
}

fn check(
    rt: &impl Abort,
    alloc: Global,
    context: &Context,
    room: usize,
    text: &[u8],
    want: &str,
) -> Result<(), Fail>
    requires { AreNets (names_of context.now) }
{
    let found = told(alloc, context, room, text)?;
    expect_told(rt, text, found.as_bytes(), want.as_bytes());
    Ok(())
}

// Reads the texts of a table in this room, and compares.
fn check_table(
    rt: &impl Abort,
    alloc: Global,
    context: &Context,
    room: usize,
    table: &str,
) -> Result<(), Fail>
    requires { AreNets (names_of context.now) }
{
    let mut tried = false;
    for line in table.lines() {
        if let Some((text, want)) = line.split_once(" | ") {
            check(rt, alloc, context, room, text.as_bytes(), want)?;
            tried = true;
        }
    }
    assert!(rt; tried);
    Ok(())
}

// What words stand for in the texts below; forms and operations come before names.
fn names(alloc: Global) -> Result<Context, Fail>
    ensures { IfOk result (λ context. AreNets (names_of context)) }
{
    let mut context = Context::new(alloc, Version::Two);
    let_stand(alloc, &mut context, b"w", b"add 1 1")?;
    let_stand(alloc, &mut context, b"deep", b"pipe(pipe(id))")?;
    let_stand(alloc, &mut context, b"pipe", b"neg 1")?;
    let_stand(alloc, &mut context, b"id", b"neg 2")?;
    let_stand(alloc, &mut context, b"rr", b"neg 3")?;
    let_stand(alloc, &mut context, b"x", b"if 1 > 5")?;
    Ok(context)
}

// Texts, and behind a bar the printed network, or the place and the kind of the first fault.
const ANY_DEPTH: &str = r#"
w | add 1 1
farm 2 rr (w) | farm 2 rr (add 1 1)
comb(w, neg 1, w) | comb(add 1 1, neg 1, add 1 1)
a2a 1 (w) od 2 (deep) | a2a 1 (add 1 1) od 2 (pipe(pipe(id)))
wrap 2 (w) if 1 > 1 | wrap 2 (add 1 1) if 1 > 1
pipe(id) | pipe(id)
farm 2 rr (rr) | farm 2 rr (neg 3)
v | 0 UnknownName
pipe(w; w) | 6 BadToken
; w | 0 BadToken
// The test of a wrap is no use, though an operation is spelled alike.
wrap 2 (id) x | 12 BadToken
"#;

const ROOM_FOR_THREE: &str = "pipe(id, deep) | pipe(id, pipe(pipe(id)))";

const ROOM_FOR_TWO: &str = r#"
deep | pipe(pipe(id))
pipe(id, deep) | 9 Deep
"#;

const ROOM_FOR_ONE: &str = "deep | 0 Deep";

#[test]
fn words_stand_for_networks(rt: HostRuntime) -> Result<(), Fail> {
    let alloc = rt.alloc();
    let context = names(alloc)?;
    for (room, table) in [
        (15, ANY_DEPTH),
        (3, ROOM_FOR_THREE),
        (2, ROOM_FOR_TWO),
        (1, ROOM_FOR_ONE),
    ] {
        check_table(&rt, alloc, &context, room, table)?;
    }
    Ok(())
}
