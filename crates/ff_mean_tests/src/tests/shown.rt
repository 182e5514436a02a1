// Records and outcomes as texts.
use ff_mean::Outcome;
use ff_node::Records;
use ff_rec::{Record, split};
use std::alloc::Global;
use std::process::Abort;
use std::test::Fail;

/// The records of a text with a `/` behind each.
pub fn records(alloc: Global, lines: &str) -> Result<Records, Fail> {
    let mut records = Records::new(alloc);
    for line in lines.split_terminator('/') {
        records.push(Record::of_line(alloc, split(line.as_bytes(), b'\n').0)?)?;
    }
    Ok(records)
}

// The text of records, with a `/` behind each.
fn show(alloc: Global, records: &Records) -> Result<Vec<u8>, Fail> {
    let mut text = Vec::new(alloc);
    for k in 0..records.len() {
        if let Some(r) = records.get(k) {
            text.extend_from_slice(r.joined())?;
            text.push(b'/')?;
        }
    }
    Ok(text)
}

fn expect_records(rt: &impl Abort, alloc: Global, found: &Records, want: &str) -> Result<(), Fail> {
    let text = show(alloc, found)?;
    assert_eq!(rt; text.as_slice(), want.as_bytes());
    Ok(())
}

/// A run sent this, rejected so many, and handed these of them over.
pub fn expect(
    rt: &impl Abort,
    alloc: Global,
    run: &Outcome,
    wanted: &str,
    count: u64,
    rejects: &str,
) -> Result<(), Fail> {
    match run {
        Outcome::Done {
            sent,
            rejected,
            kept,
        } => {
            assert_eq!(rt; *rejected, count);
            expect_records(rt, alloc, sent, wanted)?;
            expect_records(rt, alloc, kept, rejects)
        }
        Outcome::Over => panic!(rt; "over"),
    }
}
