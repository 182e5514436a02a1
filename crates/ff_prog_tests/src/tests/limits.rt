// Programs at the limits of the rules, and one past them.
use super::texts::check;
use std::alloc::{AllocError, Global};
use std::process::Abort;
use std::test::Fail;

// A text of a part with a number in it, so many times, with the numbers from 0 on, and an end.
fn numbered(
    alloc: Global,
    times: u32,
    parts: (&str, &str),
    end: &str,
) -> Result<String, AllocError> {
    let mut text = String::new(alloc);
    for i in 0..times {
        let part = format!(in alloc; "{}{i}{}", parts.0, parts.1)?;
        text.push_str(part.as_str())?;
    }
    text.push_str(end)?;
    Ok(text)
}

// What is told of such a text is what is wanted.
fn check_many(
    rt: &impl Abort,
    alloc: Global,
    times: u32,
    parts: (&str, &str),
    end: &str,
    want: &str,
) -> Result<(), Fail> {
    let text = numbered(alloc, times, parts, end)?;
    check(rt, alloc, text.as_bytes(), want)
}

#[test]
fn as_many_tasks_as_may_be(rt: HostRuntime) -> Result<(), Fail> {
    let alloc = rt.alloc();
    let same = ("a=copy ", ";");
    let past = "Rule { rule: 1, statement: 4097 }";
    check_many(&rt, alloc, 4_096, same, "out a", "kept")?;
    check_many(&rt, alloc, 4_097, same, "out a", past)?;
    // The lowest rule is told, whatever else is broken before it.
    check_many(&rt, alloc, 4_097, same, "b = copy c", past)
}

#[test]
fn as_many_names_as_may_be(rt: HostRuntime) -> Result<(), Fail> {
    let alloc = rt.alloc();
    let apart = ("n", "=copy 1\n");
    check_many(&rt, alloc, 1_024, apart, "out n0", "kept")?;
    check_many(
        &rt,
        alloc,
        1_025,
        apart,
        "out n0",
        "Rule { rule: 2, statement: 1025 }",
    )?;
    // A name that is only read or put out counts as well, and before the rules on writers.
    check_many(
        &rt,
        alloc,
        1_024,
        apart,
        "n0 = copy x",
        "Rule { rule: 2, statement: 1025 }",
    )?;
    check_many(
        &rt,
        alloc,
        1_024,
        apart,
        "out x",
        "Rule { rule: 2, statement: 1025 }",
    )?;
    check_many(
        &rt,
        alloc,
        1_023,
        apart,
        "n0 = copy x",
        "Rule { rule: 3, statement: 1024 }",
    )
}

#[test]
fn as_many_names_put_out_as_may_be(rt: HostRuntime) -> Result<(), Fail> {
    let alloc = rt.alloc();
    let tasks = numbered(alloc, 65, ("n", "=copy 1;"), "out")?;
    for (times, want) in [(64, "kept"), (65, "Rule { rule: 5, statement: 66 }")] {
        let mut text = numbered(alloc, 0, ("", ""), tasks.as_str())?;
        let outs = numbered(alloc, times, (" n", ""), "")?;
        text.push_str(outs.as_str())?;
        check(&rt, alloc, text.as_bytes(), want)?;
    }
    Ok(())
}

#[test]
fn as_long_a_text_as_may_be(rt: HostRuntime) -> Result<(), Fail> {
    let none = "Rule { rule: 5, statement: 0 }";
    let longest = vec![in rt.alloc(); b' '; 65_536]?;
    let longer = vec![in rt.alloc(); b';'; 65_537]?;
    check(&rt, rt.alloc(), longest.as_slice(), none)?;
    check(&rt, rt.alloc(), longer.as_slice(), "TooLong")
}
