// How a master ends.
use super::{Case, ORDERS, Played, play, puts};
use ff_port::End;
use std::alloc::Global;
use std::process::Abort;
use std::test::Fail;

// What is fed, the answers, what is put, and the end.
const ENDS: [(&str, &str, &[&str], End); 12] = [
    ("!", "", &["! ! "], End::Abort),
    ("3!", "3:x|", &["3! ! ", "3! x! "], End::Abort),
    ("3!", "3:x| !:z|.", &["3! ! ", "3! x! "], End::Abort),
    (
        "32!",
        "3:x| 2:y|",
        &["3! ! ", "32! x! ", "32! xy! "],
        End::Abort,
    ),
    ("3.", "3:!", &["3! ! "], End::Abort),
    ("3.", "3:x!", &["3! ! "], End::Abort),
    ("3.", "3:.", &["3! ! "], End::Memory),
    ("3.", "3:x.", &["3! ! "], End::Memory),
    ("3.", "3:2x| 2:y.", &["32! x! "], End::Memory),
    ("3.", "3:x| .:z1*|.", &["3. x. "], End::Eos),
    ("3.", "3:x| .:!", &["3. x! "], End::Abort),
    (".", ".:z!", &[". ! "], End::Abort),
];

// Abort and Eos come at each in at each moment, also behind the end that was told to the workers and behind a cut.
#[test]
fn each_in_ends_at_each_moment(rt: HostRuntime) -> Result<(), Fail> {
    for (fed, answers, wanted, end) in ENDS {
        let case = Case {
            workers: 1,
            limit: 9,
            fed,
            answers,
        };
        puts(&rt, rt.alloc(), case, wanted, (end, false))?;
    }
    Ok(())
}

// With memory for so many puts, a master puts this and ends so, under all orders.
fn runs_out(
    rt: &impl Abort,
    alloc: Global,
    memory: u32,
    wanted: &str,
    end: End,
) -> Result<(), Fail> {
    let case = Case {
        workers: 1,
        limit: 9,
        fed: "3.",
        answers: "3:2x| 2:y|",
    };
    for seed in 1..=ORDERS {
        let played = play(alloc, case, seed, memory)?;
        puts_just(rt, &played, wanted, end, seed);
    }
    Ok(())
}

fn puts_just(rt: &impl Abort, played: &Played, wanted: &str, end: End, seed: u32) {
    assert_eq!(rt;
        (played.put.as_str(), played.end),
        (wanted, Some(end)),
        "{seed}"
    );
}

// Memory is there for some records: those go on, and then Abort.
#[test]
fn memory_runs_out_at_each_record(rt: HostRuntime) -> Result<(), Fail> {
    for (memory, wanted, end) in [
        (0, "! ! ", End::Memory),
        (1, "3! ! ", End::Memory),
        (2, "32! ! ", End::Memory),
        (3, "32! x! ", End::Memory),
        (4, "32. xy. ", End::Eos),
    ] {
        runs_out(&rt, rt.alloc(), memory, wanted, end)?;
    }
    Ok(())
}
