// Programs of thousands of tasks: each takes time in proportion to its length.
use super::told::check;
use std::alloc::{AllocError, Global};
use std::test::Fail;

// Puts a part behind a text so many times.
fn push_times(text: &mut String, times: u32, part: &str) -> Result<(), AllocError> {
    for _ in 0..times {
        text.push_str(part)?;
    }
    Ok(())
}

// Puts a task behind a text for each of the names n0 to n999: it reads that name, or its number.
fn push_round(text: &mut String, alloc: Global, word: &str, name: &str) -> Result<(), AllocError> {
    for i in 0..1_000 {
        let task = format!(in alloc; "n{i}={word} {name}{i};")?;
        text.push_str(task.as_str())?;
    }
    Ok(())
}

#[test]
fn all_read_one_name(rt: HostRuntime) -> Result<(), Fail> {
    let mut text = String::new(rt.alloc());
    text.push_str("a=copy 5;")?;
    push_times(&mut text, 4_095, "b=add a a;")?;
    text.push_str("out a b")?;
    check(&rt, rt.alloc(), text.as_bytes(), 4_096, "a 5;b 10;")
}

#[test]
fn one_chain(rt: HostRuntime) -> Result<(), Fail> {
    let mut text = String::new(rt.alloc());
    text.push_str("a=copy 0;")?;
    push_times(&mut text, 4_095, "a=add a 2;")?;
    text.push_str("out a")?;
    check(&rt, rt.alloc(), text.as_bytes(), 4_096, "a 8190;")
}

#[test]
fn names_rewritten_in_turn(rt: HostRuntime) -> Result<(), Fail> {
    let mut text = String::new(rt.alloc());
    push_round(&mut text, rt.alloc(), "copy", "")?;
    for _ in 0..3 {
        push_round(&mut text, rt.alloc(), "neg", "n")?;
    }
    text.push_str("out n0 n1 n999")?;
    check(
        &rt,
        rt.alloc(),
        text.as_bytes(),
        4_000,
        "n0 0;n1 -1;n999 -999;",
    )
}
