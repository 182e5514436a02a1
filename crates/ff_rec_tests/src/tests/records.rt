use ff_rec::{Kept, Record, Records, split};
use std::alloc::Global;
use std::process::Abort;
use std::test::Fail;

// The records of these lines.
fn records_of(alloc: Global, lines: &[&str]) -> Result<Records, Fail> {
    let mut records = Records::new(alloc);
    for line in lines {
        let record = Record::of_line(alloc, split(line.as_bytes(), b'\n').0)?;
        records.push(record)?;
    }
    Ok(records)
}

// That is a record, of this line.
fn expect_record(rt: &impl Abort, record: Option<&Record>, want: &str) {
    match record {
        Some(r) => assert_eq!(rt; r.joined(), want.as_bytes()),
        None => panic!(rt; "no record {want}"),
    }
}

// The first record is taken out, and has this line.
fn expect_first(rt: &impl Abort, records: &mut Records, want: &str) {
    match records.take_first() {
        Some(r) => expect_record(rt, Some(&r), want),
        None => panic!(rt; "no record {want}"),
    }
}

// The records come out in their order, and then no other does.
fn expect_in_order(rt: &impl Abort, records: &mut Records, lines: &[&str]) {
    for line in lines {
        expect_first(rt, records, line);
    }
    assert!(rt; records.take_first().is_none());
}

// There are three records.
fn expect_three(rt: &impl Abort, records: &Records) {
    assert_eq!(rt; records.len(), 3);
    assert!(rt; !records.is_empty());
}

#[test]
fn records_come_out_in_their_order(rt: HostRuntime) -> Result<(), Fail> {
    assert!(rt; Records::new(rt.alloc()).is_empty());
    let records = records_of(rt.alloc(), &["a", "b", "c"])?;
    expect_three(&rt, &records);
    expect_record(&rt, records.get(1), "b");
    assert!(rt; records.get(3).is_none());
    let mut others = records.copy()?;
    expect_in_order(&rt, &mut others, &["a", "b", "c"]);
    expect_three(&rt, &records);
    Ok(())
}
