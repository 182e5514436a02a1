// What no clause says: that numbers are read while memory is there, and that the clauses mean these lines.
use ff_dc::Numbers;
use ff_io::MemSource;
use ff_numbers::{InputFault, MOST_NUMBERS, read_numbers};
use ff_rec::LineFault;
use std::alloc::Global;
use std::test::Fail;

// What is read of these bytes where a read gives so many at most, and call `fail` fails.
fn read(
    alloc: Global,
    text: &[u8],
    most: usize,
    fail: u64,
) -> Result<Result<Numbers, InputFault>, Fail> {
    let bytes = Vec::from_slice(alloc, text)?;
    let mut source = MemSource::new(bytes, most.max(1), vec![in alloc; fail]?);
    Ok(read_numbers(alloc, &mut source))
}

// Whether these are the numbers, however many bytes a read gives.
fn are_numbers(alloc: Global, text: &[u8], numbers: &[i64]) -> Result<bool, Fail> {
    let mut same = true;
    for most in [1, 3, 65_536] {
        match read(alloc, text, most, 0)? {
            Ok(read) => same = same && read.as_slice() == numbers,
            Err(_) => same = false,
        }
    }
    Ok(same)
}

// Whether this fault is told, however many bytes a read gives.
fn is_fault(alloc: Global, text: &[u8], fault: InputFault) -> Result<bool, Fail> {
    let mut same = true;
    for most in [1, 3, 65_536] {
        match read(alloc, text, most, 0)? {
            Ok(_) => same = false,
            Err(told) => same = same && told == fault,
        }
    }
    Ok(same)
}

#[test]
fn lines_of_numbers(rt: HostRuntime) -> Result<(), Fail> {
    let alloc = rt.alloc();
    let plain = are_numbers(alloc, b"5\n-2\n7\n", &[5, -2, 7])?;
    let none = are_numbers(alloc, b"", &[])?;
    let last = are_numbers(alloc, b"+1\n007", &[1, 7])?;
    let ends = are_numbers(
        alloc,
        b"-9223372036854775808\n9223372036854775807\n",
        &[i64::MIN, i64::MAX],
    )?;
    assert_eq!(rt; (plain, none, last, ends), (true, true, true, true));
    Ok(())
}

#[test]
fn lines_that_are_none(rt: HostRuntime) -> Result<(), Fail> {
    let alloc = rt.alloc();
    let word = is_fault(alloc, b"1\nx\n3\n", InputFault::NotNumber(2))?;
    let empty = is_fault(alloc, b"1\n2\n\n", InputFault::NotNumber(3))?;
    let two = is_fault(alloc, b"1\t2\n", InputFault::NotNumber(1))?;
    let last = is_fault(
        alloc,
        b"1\n2\n9223372036854775808",
        InputFault::NotNumber(3),
    )?;
    let first = is_fault(alloc, b"1\nx\ny\n", InputFault::NotNumber(2))?;
    assert_eq!(rt;
        (word, empty, two, last, first),
        (true, true, true, true, true)
    );
    Ok(())
}

// These bytes, then a line of 65 fields, one too many, then the others. One read gives all.
fn around_a_wide_line(alloc: Global, before: &[u8], behind: &[u8]) -> Result<Vec<u8>, Fail> {
    let mut text = Vec::from_slice(alloc, before)?;
    let tabs = vec![in alloc; b'\t'; 64]?;
    text.extend_from_slice(&tabs)?;
    text.extend_from_slice(behind)?;
    Ok(text)
}

#[test]
fn what_stands_first_is_told(rt: HostRuntime) -> Result<(), Fail> {
    let alloc = rt.alloc();
    let behind = around_a_wide_line(alloc, b"1\n", b"\nx\n")?;
    let behind = is_told(
        alloc,
        &behind,
        InputFault::Line(LineFault::TooManyFields(2)),
    )?;
    let before = around_a_wide_line(alloc, b"x\n", b"\n")?;
    let before = is_told(alloc, &before, InputFault::NotNumber(1))?;
    let long = vec![in alloc; b'1'; 65_537]?;
    let long = is_told(alloc, &long, InputFault::Line(LineFault::TooLong(1)))?;
    assert_eq!(rt; (behind, before, long), (true, true, true));
    Ok(())
}

// Whether this fault is told where all is read at once.
fn is_told(alloc: Global, text: &[u8], fault: InputFault) -> Result<bool, Fail> {
    match read(alloc, text, 100_000, 0)? {
        Ok(_) => Ok(false),
        Err(told) => Ok(told == fault),
    }
}

#[test]
fn reads_that_fail(rt: HostRuntime) -> Result<(), Fail> {
    let alloc = rt.alloc();
    let mut told = true;
    for call in 1..6 {
        match read(alloc, b"1\n2\n", 1, call)? {
            Ok(_) => told = false,
            Err(fault) => told = told && fault == InputFault::Read,
        }
    }
    // The fifth call would tell the end, and the sixth is never made.
    let never = match read(alloc, b"1\n2\n", 1, 6)? {
        Ok(numbers) => numbers.len() == 2,
        Err(_) => false,
    };
    assert_eq!(rt; (told, never), (true, true));
    Ok(())
}

// So many lines of one digit.
fn lines_of_ones(alloc: Global, n: usize) -> Result<Vec<u8>, Fail> {
    let mut text = Vec::with_capacity(alloc, n.saturating_mul(2))?;
    for _ in 0..n {
        text.extend_from_slice(b"1\n")?;
    }
    Ok(text)
}

#[test]
fn as_many_numbers_as_may_be(rt: HostRuntime) -> Result<(), Fail> {
    let alloc = rt.alloc();
    let most = lines_of_ones(alloc, MOST_NUMBERS)?;
    let most = match read(alloc, &most, 65_536, 0)? {
        Ok(numbers) => numbers.len(),
        Err(_) => 0,
    };
    let mut text = lines_of_ones(alloc, MOST_NUMBERS)?;
    text.push(b'x')?;
    let past = is_told(alloc, &text, InputFault::TooMany)?;
    assert_eq!(rt; (most, past), (MOST_NUMBERS, true));
    Ok(())
}
