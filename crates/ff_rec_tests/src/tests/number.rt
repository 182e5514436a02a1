// The expected values are those of the definition of a field's number, worked out by hand.
use ff_rec::{print_number, read_number};
use std::process::Abort;
use std::test::Fail;

// A text is read as this number, if any.
fn check_read(rt: &impl Abort, text: &str, want: Option<i64>) {
    assert_eq!(rt; read_number(text.as_bytes()), want, "at {text}");
}

#[test]
fn reads_the_numbers_of_64_bits(rt: HostRuntime) {
    check_read(&rt, "0", Some(0));
    check_read(&rt, "-0", Some(0));
    check_read(&rt, "+7", Some(7));
    check_read(&rt, "007", Some(7));
    check_read(&rt, "-12", Some(-12));
    check_read(&rt, "9223372036854775807", Some(9223372036854775807));
    check_read(&rt, "-9223372036854775808", Some(-9223372036854775808));
}

#[test]
fn reads_nothing_else(rt: HostRuntime) {
    for text in [
        "",
        "-",
        "+",
        "+-1",
        "--1",
        "1x",
        " 1",
        "1.0",
        "9223372036854775808",
        "-9223372036854775809",
        "\u{e9}",
    ] {
        check_read(&rt, text, None);
    }
    assert_eq!(rt; read_number(b"1\xff"), None);
}

#[test]
fn prints_decimal_digits(rt: HostRuntime) -> Result<(), Fail> {
    for (n, want) in [
        (0, "0"),
        (7, "7"),
        (-1, "-1"),
        (9223372036854775807, "9223372036854775807"),
        (-9223372036854775808, "-9223372036854775808"),
        (100000000000000000000, "100000000000000000000"),
        (-100000000000000000000, "-100000000000000000000"),
        (
            85070591730234615865843651857942052864,
            "85070591730234615865843651857942052864",
        ),
    ] {
        let field = print_number(rt.alloc(), n)?;
        assert_eq!(rt; field.bytes(), want.as_bytes(), "at {want}");
    }
    Ok(())
}
