//! Heads: their group words, their words, and what a fresh part and a making refuse.
//! The columns are those of the words, from 1.
use crate::scripts::*;
use std::alloc::Global;
use std::process::Abort;
use std::test::Fail;

const MALFORMED: &[&[u8]] = &[
    b"",
    b"Z",
    b"X",
    b"z7",
    b"x2",
    b"Z07",
    b"X02",
    b"Z00",
    b"Z-1",
    b"Z+7",
    b"Z1234567890",
    b"Q7",
    b"Y7",
    b"7",
    b"0",
    b"7Z",
    b"ZZ7",
    b"Z7X2",
    b"Z7\r",
    b"Z\x00",
    b"\xff7",
    b"Z7\t",
    b"Z/",
    b"Z:",
    // full stops
    b".",
    b"Z7.",
    b".Z7",
    b"Z.X2",
    b"Z7.X",
    b"Z7.x2",
    b"z7.X2",
    b"Z7.2",
    b"7.Z2",
    b"Z7..X2",
    b"Z07.X2",
    b"Z2.X02",
    b"Z2.X1234567890",
    b"Z2,X2",
    b"Z2.Z3.Z4",
    b"Z2.Z3.",
    b".Z2.Z3",
];

const UNUSABLE: &[&[u8]] = &[
    b"Z0",
    b"Z1",
    b"Z65",
    b"Z999999999",
    b"X0",
    b"X7",
    b"X64",
    b"X999999999",
    b"Z8.Z9",
    b"Z5.Z13",
    b"X6.X1",
    b"Z64.Z2",
    b"Z1.Z2",
    b"Z2.Z1",
    b"X0.Z7",
    b"Z7.X7",
    b"Z0.Z65",
];

const USABLE: &[&[u8]] = &[
    b"Z2", b"Z64", b"X1", b"X6", b"Z2.X2", b"X2.Z2", b"Z8.Z8", b"X3.X3", b"X1.Z32", b"Z21.Z3",
];

fn check_group_words(
    rt: &impl Abort,
    heap: Global,
    table: &str,
    words: &[&[u8]],
    expected: &str,
) -> Result<(), Fail> {
    for (i, word) in words.iter().enumerate() {
        let line = joined(heap, b"H ", word, b" 6 1 12")?;
        HEAD.check(rt, heap, table, i, &line, expected)?;
    }
    Ok(())
}

// What tells the groups apart: the opposite of an element, and the first number that is none.
const GROUPS: &[Case] = &[
    (
        b"H Z64 63 1 63\nP 0 1\nP 0 0\nP 0 63\nP 0 64",
        "M 1\nW 1\nW 1\nW 2\nX 41 S 5 5\n",
    ),
    (
        b"H X6 63 1 63\nP 0 1\nP 0 0\nP 0 64",
        "M 1\nW 1\nW 2\nX 41 S 4 5\n",
    ),
    (
        b"H Z8.Z8 63 1 63\nP 0 9\nP 0 0\nP 0 64",
        "M 1\nW 1\nW 1\nX 41 S 4 5\n",
    ),
    (
        b"H X3.X3 63 1 63\nP 0 9\nP 0 0\nP 0 64",
        "M 1\nW 1\nW 2\nX 41 S 4 5\n",
    ),
    // 4 + 5 = 0 in Z2.Z3, and 4 + 2 = 0 in Z3.Z2
    (
        b"H Z2.Z3 5 1 5\nP 0 4\nP 0 0\nP 0 2\nP 0 6",
        "M 1\nW 1\nW 1\nW 1\nX 41 S 5 5\n",
    ),
    (
        b"H Z3.Z2 5 1 5\nP 0 4\nP 0 0\nP 0 2\nP 0 6",
        "M 1\nW 1\nW 1\nW 2\nX 41 S 5 5\n",
    ),
    (
        b"H Z2.X2 7 1 14\nP 0 5\nP 0 0\nG 0\nP 1 7\nP 1 8\nG 1\nL\n",
        "M 2\nW 1\nW 2\nV 0\nW 1\nX 41 S 6 5\nV 7\nN 3 0 4 -\n",
    ),
];

#[test]
fn group_words(rt: HostRuntime) -> Result<(), Fail> {
    let heap = rt.alloc();
    check_group_words(&rt, heap, "malformed", MALFORMED, "X 51 T 1 3")?;
    check_group_words(&rt, heap, "unusable", UNUSABLE, "X 30 M 1 3")?;
    check_group_words(&rt, heap, "usable", USABLE, "M 2\nV 0")?;
    check_scripts(&rt, heap, "groups", GROUPS)
}

const WORDS: &[Case] = &[
    // the first two bytes
    (b"h Z7 6 1 12", "X 50 T 1 1"),
    (b" H Z7 6 1 12", "X 50 T 1 1"),
    (b"HZ7 6 1 12", "X 50 T 1 1"),
    (b"H\tZ7 6 1 12", "X 50 T 1 1"),
    (b"H\r", "X 50 T 1 1"),
    (b"H\x00", "X 50 T 1 1"),
    (b"\xff Z7 6 1 12", "X 50 T 1 1"),
    (b"\x00", "X 50 T 1 1"),
    (b"\t", "X 50 T 1 1"),
    (b"\r", "X 50 T 1 1"),
    (b" ", "X 50 T 1 1"),
    // the number of words
    (b"H ", "X 52 T 1 3"),
    (b"H   ", "X 52 T 1 5"),
    (b"H Z7", "X 52 T 1 5"),
    (b"H Z7 6", "X 52 T 1 7"),
    (b"H z7 6 1", "X 52 T 1 9"),
    (b"H Z7 6\t1 12", "X 52 T 1 12"),
    (b"H Z7 6 1 12 ", "X 52 T 1 13"),
    (b"H  Z7 6 1 12", "X 52 T 1 13"),
    (b"H Z7 6  1 12", "X 52 T 1 13"),
    (b"H Z7 6 1 12 0", "X 52 T 1 14"),
    // the first word that is malformed
    (b"H    ", "X 51 T 1 3"),
    (b"H Z7 06 1 12", "X 51 T 1 6"),
    (b"H Z7 -6 1 12", "X 51 T 1 6"),
    (b"H Z7 Z7 1 12", "X 51 T 1 6"),
    (b"H Z7  1 12", "X 51 T 1 6"),
    (b"H Z7 1234567890 1 12", "X 51 T 1 6"),
    (b"H Z7 6 01 12", "X 51 T 1 8"),
    (b"H Z7 6 1\x00 12", "X 51 T 1 8"),
    (b"H Z7 6 x 012", "X 51 T 1 8"),
    (b"H Z7 6 1 012", "X 51 T 1 10"),
    (b"H Z7 6 1 +1", "X 51 T 1 10"),
    (b"H Z7 6 1 ", "X 51 T 1 10"),
    (b"H Z7 6 1 12\r", "X 51 T 1 10"),
    (b"H Z7 6 1 1\xff", "X 51 T 1 10"),
    (b"H Z65 0 0 x", "X 51 T 1 11"),
];

// Another command in the place of the head, and heads that are not at line 1.
const PLACES: &[Case] = &[
    (b"G 0\nH Z7 6 1 12\n", "X 50 T 1 1\n"),
    (b"P 0 1\nH Z7 6 1 12\n", "X 50 T 1 1\n"),
    (b"R 0 1\nH Z7 6 1 12\n", "X 50 T 1 1\n"),
    (b"S\nH Z7 6 1 12\n", "X 50 T 1 1\n"),
    (b"L", "X 50 T 1 1\n"),
    (b"\n\nL\nH Z7 6 1 12\n", "X 50 T 3 1\n"),
    (b"\n \nH Z7 6 1 12\n", "X 50 T 2 1\n"),
    (b"\n\r\nH Z7 6 1 12\n", "X 50 T 2 1\n"),
    (b"\n\n\nH\nL\n", "X 52 T 4 2\n"),
    (b"\n\nH Z7 6 0 12\nH Z7 6 1 12\n", "X 11 I 3 8\n"),
    (b"\nH Z65 6 1 12\nL\n", "X 30 M 2 3\n"),
    (b"\n\nH Z7 6 1 12", "M 2\n"),
];

#[test]
fn words_and_places_of_heads(rt: HostRuntime) -> Result<(), Fail> {
    HEAD.check_all(&rt, rt.alloc(), "words", WORDS)?;
    check_scripts(&rt, rt.alloc(), "places", PLACES)
}

const MAKINGS: &[Case] = &[
    // pages
    (b"H Z7 6 0 12", "X 11 I 1 8"),
    (b"H Z7 6 64 12", "M 128\nV 0"),
    (b"H Z7 6 65 12", "X 11 I 1 8"),
    (b"H Z2.X2 7 999999999 14", "X 11 I 1 11"),
    // width
    (b"H Z7 6 1 0", "X 12 I 1 10"),
    (b"H Z7 6 1 1024", "M 64\nV 0"),
    (b"H Z7 6 64 1024", "M 4096\nV 0"),
    (b"H Z7 6 1 1025", "X 12 I 1 10"),
    (b"H Z2.X2 7 64 999999999", "X 12 I 1 14"),
    // n
    (b"H Z7 0 1 12", "X 31 M 1 6"),
    (b"H Z7 1 1 1", "M 1\nV 0"),
    (b"H Z64 63 1 63", "M 1\nV 0"),
    (b"H Z64 63 1 62", "X 32 M 1 7"),
    (b"H Z64 64 1 1024", "X 31 M 1 7"),
    (b"H Z7 999999999 1 12", "X 31 M 1 6"),
    (b"H Z7 12 1 12", "M 1\nV 0"),
    (b"H Z7 13 1 12", "X 32 M 1 6"),
    (b"H Z2.X2 7 1 6", "X 32 M 1 9"),
    // 11 comes first
    (b"H Z7 6 0 0", "X 11 I 1 8"),
    (b"H Z7 6 65 1025", "X 11 I 1 8"),
    (b"H Z65 6 0 12", "X 11 I 1 9"),
    (b"H Z7 64 0 12", "X 11 I 1 9"),
    (b"H Z7 13 0 12", "X 11 I 1 9"),
    (
        b"H Z999999999.X999999999 999999999 999999999 999999999",
        "X 11 I 1 35",
    ),
    // then 12, 30, 31 and 32
    (b"H Z65 6 1 0", "X 12 I 1 11"),
    (b"H Z7 0 1 0", "X 12 I 1 10"),
    (b"H Z7 64 1 0", "X 12 I 1 11"),
    (
        b"H Z999999999.X999999999 999999999 1 999999999",
        "X 12 I 1 37",
    ),
    (b"H Z65 64 1 12", "X 30 M 1 3"),
    (b"H Z65 13 1 12", "X 30 M 1 3"),
    (b"H Z999999999.X999999999 999999999 1 1", "X 30 M 1 3"),
    (b"H Z7 64 1 1", "X 31 M 1 6"),
];

// One call, as in `calls_that_mark_nothing` of `lines`: each of the two files has the tests of its own tables.
#[test]
fn refused_makings(rt: HostRuntime) -> Result<(), Fail> {
    HEAD.check_all(&rt, rt.alloc(), "makings", MAKINGS)
}
