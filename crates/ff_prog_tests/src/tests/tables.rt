// Tables of tests: each case is a line, in columns with bars between them, and \n, \t and \r are as in Rust.
use std::alloc::{AllocError, Global};
use std::process::Abort;

/// The text that a column stands for.
pub fn text_of(alloc: Global, column: &str) -> Result<String, AllocError> {
    let mut text = String::new(alloc);
    let mut marked = false;
    for c in column.chars() {
        if marked || c != '\\' {
            text.push(if marked { marked_char(c) } else { c })?;
            marked = false;
        } else {
            marked = true;
        }
    }
    Ok(text)
}

// What stands for a character behind a backslash.
fn marked_char(c: char) -> char {
    match c {
        'n' => '\n',
        't' => '\t',
        'r' => '\r',
        other => other,
    }
}

/// What is told of a text is what is wanted.
pub fn expect_told(rt: &impl Abort, text: &[u8], found: &[u8], want: &[u8]) {
    assert_eq!(rt; found, want, "{text:?}");
}
