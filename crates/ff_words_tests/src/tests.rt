// What is expected is worked out by hand, from what clap's documents say of such arguments and from the limits of each
// command.
use ff_words::read_command;
use refused::REFUSED;
use std::alloc::{AllocError, Global};
use std::process::Abort;
use std::test::Fail;
use taken::TAKEN;

mod refused;
mod taken;

// The words of a line, which stand between single spaces.
fn make_words(alloc: Global, line: &str) -> Result<Vec<String>, AllocError> {
    let mut words = Vec::new(alloc);
    for word in line.split(' ') {
        words.push(String::from_str(alloc, word)?)?;
    }
    Ok(words)
}

// How the command of these words prints, or the cause why they are none.
fn shown(alloc: Global, words: &[String]) -> Result<String, AllocError> {
    match read_command(alloc, words) {
        Ok(command) => format!(in alloc; "{command:?}"),
        Err(fault) => format!(in alloc; "{fault:?}"),
    }
}

// What is shown of the words of a line.
fn expect_shown(rt: &impl Abort, line: &str, found: &str, want: &str) {
    assert_eq!(rt; found, want, "{line}");
}

// Reads the words of a line, and compares.
fn check_line(rt: &impl Abort, alloc: Global, line: &str, want: &str) -> Result<(), Fail> {
    let words = make_words(alloc, line)?;
    let found = shown(alloc, &words)?;
    expect_shown(rt, line, found.as_str(), want);
    Ok(())
}

// Reads the lines of a table that have a bar, and counts them.
fn check_table(rt: &impl Abort, alloc: Global, table: &str) -> Result<u64, Fail> {
    let mut tried = 0u64;
    for line in table.lines() {
        if let Some((line, want)) = line.split_once(" | ") {
            check_line(rt, alloc, line, want)?;
            tried = tried.saturating_add(1);
        }
    }
    Ok(tried)
}

#[test]
fn words_by_tables(rt: HostRuntime) -> Result<(), Fail> {
    let taken = check_table(&rt, rt.alloc(), TAKEN)?;
    let refused = check_table(&rt, rt.alloc(), REFUSED)?;
    assert!(&rt; taken == 34 && refused == 103, "{taken} and {refused}");
    let none = shown(rt.alloc(), &[])?;
    expect_shown(&rt, "no words", none.as_str(), "Usage");
    Ok(())
}
