use ff_rec::{Field, FieldFault};
use std::process::Abort;
use std::test::Fail;

#[test]
fn names_the_place_of_the_first_bad_byte(rt: HostRuntime) -> Result<(), Fail> {
    for (text, want) in [("\t", 0), ("ab\n", 2), ("a\tb\nc", 1), ("a\nb\tc", 1)] {
        match Field::new(rt.alloc(), text.as_bytes()) {
            Ok(_) => panic!(rt; "a field with a separator"),
            Err(fault) => assert_eq!(rt; fault, FieldFault::BadByte(want)),
        }
    }
    Ok(())
}

#[test]
fn holds_any_other_byte(rt: HostRuntime) -> Result<(), Fail> {
    for bytes in [b"".as_slice(), b"a b", b"\r\x00\xff"] {
        let field = Field::new(rt.alloc(), bytes)?;
        assert_eq!(rt; field.bytes(), bytes);
    }
    Ok(())
}
