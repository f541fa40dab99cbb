//! Lines after the head: their first bytes, their words, and the calls on a store of two empty records.
//! None of them marks a cell.
use crate::scripts::*;
use std::test::Fail;

const COMMANDS: &[&[u8]] = &[
    b"g 0",
    b"p 0 1",
    b"l",
    b"A",
    b"M 2",
    b"V 0",
    b"0",
    b"#",
    b" ",
    b" G 0",
    b"\tG 0",
    b"\r",
    b"\x00",
    b"\x80 0",
    b"\xff",
    b"\xffG 0",
    // the second byte
    b"GG 0",
    b"G\t0",
    b"G\x000",
    b"P0 1",
    b"R\r",
    b"S\xa0 0",
    b"LL",
    b"L\r",
    b"L\t",
    b"L\x00",
    b"L\xff",
    // a second head, whatever its words
    b"H",
    b"H ",
    b"HH",
    b"H Z65 0 0 0",
    b"H X2 3 1 6\r",
];

const COUNTS: &[Case] = &[
    (b"P", "X 52 T 2 2"),
    (b"P ", "X 52 T 2 3"),
    (b"P 0", "X 52 T 2 4"),
    (b"P x", "X 52 T 2 4"),
    (b"P 0\t1", "X 52 T 2 6"),
    (b"P 0 1 ", "X 52 T 2 7"),
    (b"P  0 1", "X 52 T 2 7"),
    (b"P 0  1", "X 52 T 2 7"),
    (b"P 0 1 2", "X 52 T 2 8"),
    (b"P 9 9 x \r", "X 52 T 2 10"),
    (b"R", "X 52 T 2 2"),
    (b"R 0", "X 52 T 2 4"),
    (b"R 0 1 2", "X 52 T 2 8"),
    (b"S", "X 52 T 2 2"),
    (b"S 9", "X 52 T 2 4"),
    (b"S 0 1 2", "X 52 T 2 8"),
    (b"G", "X 52 T 2 2"),
    (b"G  ", "X 52 T 2 4"),
    (b"G 0 ", "X 52 T 2 5"),
    (b"G 0 0", "X 52 T 2 6"),
    (b"L 0", "X 52 T 2 4"),
    (b"L  ", "X 52 T 2 4"),
    (b"L \r", "X 52 T 2 4"),
];

const MALFORMED: &[Case] = &[
    (b"G 00", "X 51 T 2 3"),
    (b"G 01", "X 51 T 2 3"),
    (b"G +1", "X 51 T 2 3"),
    (b"G -1", "X 51 T 2 3"),
    (b"G 1.0", "X 51 T 2 3"),
    (b"G 0x1", "X 51 T 2 3"),
    (b"G /", "X 51 T 2 3"),
    (b"G 1:", "X 51 T 2 3"),
    (b"G 1234567890", "X 51 T 2 3"),
    (b"G 0000000001", "X 51 T 2 3"),
    (b"G 0\r", "X 51 T 2 3"),
    (b"G \r", "X 51 T 2 3"),
    (b"G \t", "X 51 T 2 3"),
    (b"G 0\t0", "X 51 T 2 3"),
    (b"G \x00", "X 51 T 2 3"),
    (b"G 0\x80", "X 51 T 2 3"),
    (b"G \xff", "X 51 T 2 3"),
    (b"P  ", "X 51 T 2 3"),
    (b"P  0", "X 51 T 2 3"),
    (b"P 0 ", "X 51 T 2 5"),
    (b"P 0 00", "X 51 T 2 5"),
    (b"P 0 1\r", "X 51 T 2 5"),
    (b"P 0 1\x00", "X 51 T 2 5"),
    (b"P 12 +1", "X 51 T 2 6"),
    (b"P 123456789 1234567890", "X 51 T 2 13"),
    (b"P a b", "X 51 T 2 3"),
    (b"R 01 7", "X 51 T 2 3"),
    (b"R 2 \xff", "X 51 T 2 5"),
    (b"S 0 1a", "X 51 T 2 5"),
    (b"S \t 1", "X 51 T 2 3"),
];

#[test]
fn commands_and_words(rt: HostRuntime) -> Result<(), Fail> {
    let heap = rt.alloc();
    for (i, line) in COMMANDS.iter().enumerate() {
        LINE.check(&rt, heap, "commands", i, line, "X 50 T 2 1")?;
    }
    LINE.check_all(&rt, heap, "counts", COUNTS)?;
    LINE.check_all(&rt, heap, "malformed", MALFORMED)
}

const CALLS: &[Case] = &[
    (b"G 0", "V 0"),
    (b"G 1", "V 0"),
    (b"G 2", "X 40 S 2 3"),
    (b"G 999999999", "X 40 S 2 3"),
    // a put of the held value
    (b"P 0 0", "W 0"),
    (b"P 1 0", "W 0"),
    (b"P 2 0", "X 40 S 2 3"),
    (b"P 999999999 999999999", "X 40 S 2 3"),
    (b"P 0 7", "X 41 S 2 5"),
    (b"P 1 999999999", "X 41 S 2 5"),
    (b"S 0 0", "W 0"),
    (b"S 2 0", "X 40 S 2 3"),
    (b"S 2 7", "X 40 S 2 3"),
    (b"S 1 7", "X 41 S 2 5"),
    // a put would be accepted
    (b"R 0 0", "X 43 S 2 1"),
    (b"R 0 6", "X 43 S 2 1"),
    (b"R 2 0", "X 40 S 2 3"),
    (b"R 2 7", "X 40 S 2 3"),
    (b"R 1 7", "X 41 S 2 5"),
    (b"L", "N 0 0 0 -"),
];

#[test]
fn calls_that_mark_nothing(rt: HostRuntime) -> Result<(), Fail> {
    LINE.check_all(&rt, rt.alloc(), "calls", CALLS)
}
