// What is told of the text of a program: what it puts out, or what is wrong with it.
use ff_mdf::{ProgFault, Store, Value, check_program, one_thread, read_program};
use std::alloc::Global;
use std::process::Abort;
use std::test::Fail;

// What a text puts out.
fn store_of(alloc: Global, text: &[u8]) -> Result<Store, ProgFault> {
    let program = read_program(alloc, text)?;
    let checked = check_program(alloc, program)?;
    Ok(one_thread(alloc, &checked)?)
}

// The names and the values of a store.
fn printed(alloc: Global, store: &Store) -> Result<String, Fail> {
    let mut text = String::new(alloc);
    for k in 0..store.len() {
        let name = str::from_utf8(store.name(k).bytes())?;
        let entry = match store.value(k) {
            Value::Num(n) => format!(in alloc; "{name} {n};")?,
            Value::Bad => format!(in alloc; "{name} bad;")?,
        };
        text.push_str(entry.as_str())?;
    }
    Ok(text)
}

// What is told of a text.
fn told(alloc: Global, text: &[u8]) -> Result<String, Fail> {
    match store_of(alloc, text) {
        Ok(store) => printed(alloc, &store),
        Err(fault) => Ok(format!(in alloc; "{fault:?}")?),
    }
}

/// What is told of a text is what is wanted.
pub(super) fn check(rt: &impl Abort, alloc: Global, text: &[u8], want: &str) -> Result<(), Fail> {
    let found = told(alloc, text)?;
    assert_eq!(rt; found.as_bytes(), want.as_bytes(), "{text:?}");
    Ok(())
}

/// Lines of texts, each with what is told of it behind a bar; how many there are.
pub(super) fn check_lines(rt: &impl Abort, alloc: Global, lines: &str) -> Result<u64, Fail> {
    let mut tried = 0u64;
    for line in lines.lines() {
        if let Some((text, want)) = line.split_once(" | ") {
            check(rt, alloc, text.as_bytes(), want)?;
            tried = tried.saturating_add(1);
        }
    }
    Ok(tried)
}
