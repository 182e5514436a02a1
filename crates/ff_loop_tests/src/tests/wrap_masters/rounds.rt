// Which tasks a master hands out, and which results come of them.
use super::{Case, ends_so, play, puts};
use ff_port::End;
use std::process::Abort;
use std::test::Fail;

// What is fed, the answers, and what is put.
const TASKS: [(&str, &str, &[&str]); 9] = [
    (".", "", &[". . "]),
    ("a.", "a:|", &["a. . "]),
    ("3.", "3:2x| 2:y|", &["32. xy. "]),
    ("22.", "2:a|", &["22. aa. "]),
    ("3.", "3:abc|", &["3. abc. "]),
    ("3.", "3:11| 1:0|", &["311. 00. "]),
    ("3.", "3:1a1| 1:b|", &["311. abb. "]),
    ("|3*|.", "3:x*y|", &["3. xy. "]),
    ("32.", "3:1x| 2:y| 1:z|", &["321. xyz. ", "312. xzy. "]),
];

// One worker: what it is given, and then the results.
#[test]
fn tasks_go_round(rt: HostRuntime) -> Result<(), Fail> {
    for (fed, answers, wanted) in TASKS {
        let case = Case {
            workers: 1,
            limit: 9,
            fed,
            answers,
        };
        puts(&rt, rt.alloc(), case, wanted, (End::Eos, false))?;
    }
    Ok(())
}

// The limit, what is fed, the answers, what is put, and whether there were too many tasks.
const LIMITS: [(u64, &str, &str, &[&str], bool); 8] = [
    (3, "3.", "3:2x| 2:y|", &["32. xy. "], false),
    (2, "3.", "3:2x| 2:y|", &["32. xy. "], false),
    (1, "3.", "3:2x| 2:y|", &["3. . "], true),
    (0, "3.", "3:2x| 2:y|", &[". . "], true),
    (2, "3.", "3:21x|", &["3. . "], true),
    (2, "33.", "3:x|", &["33. xx. "], false),
    (1, "33.", "3:x|", &["3. . ", "3. x. "], true),
    (1, "333.", "3:x|", &["3. . ", "3. x. "], true),
];

// At most so many tasks: past it the results that are held are dropped, and it ends by Eos all the same.
#[test]
fn the_limit_is_reached(rt: HostRuntime) -> Result<(), Fail> {
    for (limit, fed, answers, wanted, over) in LIMITS {
        let case = Case {
            workers: 1,
            limit,
            fed,
            answers,
        };
        puts(&rt, rt.alloc(), case, wanted, (End::Eos, over))?;
    }
    Ok(())
}

// What is fed, the answers, what is put, and the end.
const PAIRS: [(&str, &str, &[&str], End); 5] = [
    ("3.", "3:2x| 2:y|", &["32. . xy. "], End::Eos),
    (
        "32.",
        "3:ab| 2:cd|",
        &["3. 2. abcd. ", "3. 2. cdab. ", "32. . abcd. "],
        End::Eos,
    ),
    (
        "3.",
        "3:21| 2:a| 1:b|",
        &["32. 1. ab. ", "32. 1. ba. "],
        End::Eos,
    ),
    (
        "32.",
        "3:x! 2:y|",
        &["3! ! ! ", "3! 2! ! ", "3! 2! y! "],
        End::Abort,
    ),
    (".", ".:!", &[". . ! "], End::Abort),
];

// Answers of two workers come one into the other: each goes to its own task.
#[test]
fn two_workers_answer(rt: HostRuntime) -> Result<(), Fail> {
    for (fed, answers, wanted, end) in PAIRS {
        let case = Case {
            workers: 2,
            limit: 9,
            fed,
            answers,
        };
        puts(&rt, rt.alloc(), case, wanted, (end, false))?;
    }
    Ok(())
}

fn count(put: &str, letter: char) -> usize {
    put.chars().filter(|c| *c == letter).count()
}

// This letter was put so many times.
fn has(rt: &impl Abort, put: &str, letter: char, wanted: usize, seed: u32) {
    let count = count(put, letter);
    assert_eq!(rt; count, wanted, "{letter} {seed}: {put}");
}

// Each letter was put so many times.
fn counts(rt: &impl Abort, put: &str, seed: u32) {
    for (letter, wanted) in [
        ('3', 16),
        ('2', 32),
        ('1', 32),
        ('0', 32),
        ('x', 16),
        ('y', 16),
        ('.', 65),
        (' ', 65),
    ] {
        has(rt, put, letter, wanted, seed);
    }
}

// As many workers as may be.
#[test]
fn sixty_four_workers(rt: HostRuntime) -> Result<(), Fail> {
    let case = Case {
        workers: 64,
        limit: 96,
        fed: "222222222222222222222222222222223333333333333333.",
        answers: "2:1| 1:0| 3:xy|",
    };
    for seed in 1..=10 {
        let played = play(rt.alloc(), case, seed, u32::MAX)?;
        ends_so(&rt, case, seed, &played, (End::Eos, false));
        counts(&rt, &played.put, seed);
    }
    Ok(())
}
