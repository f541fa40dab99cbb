// Examples of pieces with their places, empty ones among them,
// and of words that are numbers and words that are not.
use crate::number::read_number;
use crate::pieces::Pieces;
use std::process::Abort;
use std::test::Fail;

// At spaces, the bytes fall into these pieces at these places, and into no more.
fn check_pieces(rt: &impl Abort, bytes: &[u8], expected: &[(usize, &[u8])]) -> Result<(), Fail> {
    let mut pieces = Pieces::of(bytes, b' ');
    for (at, piece) in expected {
        let found = pieces.next().ok_or("too few pieces")?;
        assert_eq!(rt; found.at, *at);
        assert_eq!(rt; found.bytes, *piece);
    }
    assert!(rt; pieces.next().is_none());
    assert!(rt; pieces.next().is_none());
    Ok(())
}

#[test]
fn pieces_between(rt: HostRuntime) -> Result<(), Fail> {
    check_pieces(&rt, b"a b", &[(0, b"a"), (2, b"b")])?;
    check_pieces(&rt, b"put 12", &[(0, b"put"), (4, b"12")])?;
    check_pieces(&rt, b"a", &[(0, b"a")])
}

#[test]
fn empty_pieces(rt: HostRuntime) -> Result<(), Fail> {
    check_pieces(&rt, b"", &[(0, b"")])?;
    check_pieces(&rt, b" ", &[(0, b""), (1, b"")])?;
    check_pieces(&rt, b"a  b ", &[(0, b"a"), (2, b""), (3, b"b"), (5, b"")])
}

#[test]
fn numbers(rt: HostRuntime) {
    assert_eq!(rt; read_number(b"0"), Some(0));
    assert_eq!(rt; read_number(b"7"), Some(7));
    assert_eq!(rt; read_number(b"10"), Some(10));
    assert_eq!(rt; read_number(b"999999999"), Some(999999999));
}

#[test]
fn not_numbers(rt: HostRuntime) {
    let words: [&[u8]; 10] = [
        b"",
        b"00",
        b"01",
        b"1000000000",
        b"+1",
        b"1a",
        b"1 ",
        b"/",
        b":",
        &[0xb1],
    ];
    for word in words {
        assert!(rt; read_number(word).is_none());
    }
}
