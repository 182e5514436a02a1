// What a test's workers say, by letters: an item is its letter, `|` is a Mark, `*` a Pick, `.` Eos and `!` Abort.
use ff_port::Msg;
use ff_rec::{Field, Record};
use std::alloc::{AllocError, Global};
use std::collections::VecDeque;

/// More comes at in `k`.
pub(super) fn send(
    coming: &mut Vec<VecDeque<u8>>,
    k: usize,
    script: &str,
) -> Result<(), AllocError> {
    if let Some(queue) = coming.get_mut(k) {
        for letter in script.as_bytes() {
            queue.push_back(*letter)?;
        }
    }
    Ok(())
}

// What a worker answers to a message.
fn answer(answers: &'static str, letter: &str) -> &'static str {
    for one in answers.split(' ') {
        if let Some(rest) = one.strip_prefix(letter) {
            return rest.trim_start_matches(':');
        }
    }
    match letter {
        "." => ".",
        "!" => "!",
        _ => "|",
    }
}

fn letter_of(m: &Msg<Record>) -> &str {
    match m {
        Msg::Item(r) => str::from_utf8(r.joined()).unwrap_or("?"),
        Msg::Mark => "|",
        Msg::Pick(_) => "*",
        Msg::Eos => ".",
        Msg::Abort => "!",
    }
}

/// Notes a message at out `k`, and sends what its worker answers.
pub(super) fn play(
    seen: &mut Vec<String>,
    coming: &mut Vec<VecDeque<u8>>,
    answers: &'static str,
    k: usize,
    m: &Msg<Record>,
) -> Result<(), AllocError> {
    let letter = letter_of(m);
    if let Some(script) = seen.get_mut(k) {
        script.push_str(letter)?;
    }
    let worker = k.saturating_add(1);
    if worker < seen.len() {
        send(coming, worker, answer(answers, letter))?;
    }
    Ok(())
}

/// What comes next at in `k`.
pub(super) fn next_at(
    alloc: Global,
    coming: &mut Vec<VecDeque<u8>>,
    k: usize,
) -> Option<Msg<Record>> {
    let queue = coming.get_mut(k)?;
    // Where memory is refused, the letter stays.
    let m = message_of(alloc, *queue.front()?)?;
    queue.pop_front();
    Some(m)
}

fn message_of(alloc: Global, letter: u8) -> Option<Msg<Record>> {
    Some(match letter {
        b'|' => Msg::Mark,
        b'*' => Msg::Pick(0),
        b'.' => Msg::Eos,
        b'!' => Msg::Abort,
        _ => {
            let field = Field::new(alloc, &[letter]).ok()?;
            Msg::Item(Record::one(alloc, &field).ok()?)
        }
    })
}
