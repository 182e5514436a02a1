// Tables of calls: each line is a call, in columns with bars between them. The last may be left out.
//
//     WORDS | INPUT | STATUS | OUTPUT | MESSAGES | STORED
//
// Words stand as for a shell, with ' round those that have blanks. In all columns \n, \t and \r are as in Rust, and \s is a
// blank at an end; \[64 ab] is `ab` 64 times. A line that begins with // is a comment.
use std::alloc::{AllocError, Global};
use std::test::Fail;

/// A call, and what it is to answer, in the columns of its line. The words are parted behind the first one.
#[derive(Clone, Copy)]
pub struct Case<'a> {
    pub verb: &'a str,
    pub words: &'a str,
    pub input: &'a str,
    pub status: u8,
    pub out: &'a str,
    pub err: &'a str,
    pub stored: &'a str,
}

/// Whether a line of a table is a call.
pub fn is_call(line: &str) -> bool {
    let line = line.trim();
    !line.is_empty() && !line.starts_with("//")
}

/// The call of a line.
pub fn case_of(line: &str) -> Result<Case<'_>, Fail> {
    let (words, rest) = line.split_once('|').ok_or("no input")?;
    let (input, rest) = rest.split_once('|').ok_or("no status")?;
    let (status, rest) = rest.split_once('|').ok_or("no output")?;
    let (out, rest) = rest.split_once('|').ok_or("no messages")?;
    let (err, stored) = rest.split_once('|').unwrap_or((rest, ""));
    let words = words.trim();
    let (verb, words) = words.split_once(' ').unwrap_or((words, ""));
    Ok(Case {
        verb,
        words,
        input: input.trim(),
        status: status.trim().parse::<u8>().map_err(|_| "no number")?,
        out: out.trim(),
        err: err.trim(),
        stored: stored.trim(),
    })
}

/// The words of a call.
pub fn words_of(alloc: Global, case: Case) -> Result<Vec<String>, Fail> {
    let mut words = Vec::new(alloc);
    push_words(&mut words, alloc, case.verb)?;
    let mut quoted = false;
    for piece in case.words.split('\'') {
        if quoted {
            words.push(text_of(alloc, piece)?)?;
        } else {
            push_words(&mut words, alloc, piece)?;
        }
        quoted = !quoted;
    }
    Ok(words)
}

// Appends the words between blanks.
fn push_words(words: &mut Vec<String>, alloc: Global, text: &str) -> Result<(), AllocError> {
    for word in text.split_ascii_whitespace() {
        words.push(String::from_str(alloc, word)?)?;
    }
    Ok(())
}

/// The text that a column or a quoted word stands for.
pub fn text_of(alloc: Global, column: &str) -> Result<String, Fail> {
    let mut text = String::new(alloc);
    let mut repeated = false;
    for piece in column.split("\\[") {
        if repeated {
            push_repeated(&mut text, alloc, piece)?;
        } else {
            push_marked(&mut text, piece)?;
        }
        repeated = true;
    }
    Ok(text)
}

// Appends what stands behind a mark of repetition: a number, a blank, the text that is repeated, `]`, and more text.
fn push_repeated(text: &mut String, alloc: Global, piece: &str) -> Result<(), Fail> {
    let (times, rest) = piece.split_once(' ').ok_or("no times")?;
    let (unit, rest) = rest.split_once(']').ok_or("no end")?;
    let times = times.parse::<u32>().map_err(|_| "no number")?;
    push_times(text, alloc, times, unit)?;
    Ok(push_marked(text, rest)?)
}

// Appends a text many times.
fn push_times(text: &mut String, alloc: Global, times: u32, unit: &str) -> Result<(), AllocError> {
    let mut one = String::new(alloc);
    push_marked(&mut one, unit)?;
    for _ in 0..times {
        text.push_str(one.as_str())?;
    }
    Ok(())
}

// Appends a text with what its backslashes stand for.
fn push_marked(text: &mut String, piece: &str) -> Result<(), AllocError> {
    let mut marked = false;
    for c in piece.chars() {
        if marked || c != '\\' {
            text.push(if marked { marked_char(c) } else { c })?;
            marked = false;
        } else {
            marked = true;
        }
    }
    Ok(())
}

// What stands for a character behind a backslash.
fn marked_char(c: char) -> char {
    match c {
        'n' => '\n',
        't' => '\t',
        'r' => '\r',
        's' => ' ',
        other => other,
    }
}
