// The places of keys, worked out by hand: h = (h * 31 + byte) mod 2^32 from 0 on, and then mod n.
use ff_unit::key_place;
use std::test::Fail;

#[test]
fn places_of_keys(rt: HostRuntime) -> Result<(), Fail> {
    // "hello" is the hash 99162322; the four bytes 255 sum to 255 * (31^3 + 31^2 + 31 + 1) = 7849920.
    let cases: [(&[u8], u32, u32); 9] = [
        (b"", 7, 0),
        (b"a", 1, 0),
        (b"a", 3, 1),
        (b"ab", 7, 4),
        (b"\xff", 64, 63),
        (b"\xff\xff\xff\xff", 64, 0),
        (b"\xc3\xa4", 10, 9),
        (b"hello", 64, 18),
        (b"zzzzzzz", 1000, 18),
    ];
    for (bytes, n, place) in cases {
        assert_eq!(rt; key_place(bytes, n), place, "{bytes:?} {n}");
    }
    Ok(())
}
