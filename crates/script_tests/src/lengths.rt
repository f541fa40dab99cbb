//! Lines of 80 and 81 bytes, and scripts of 65,535 and 65,536 bytes.
//! Each is some bytes, filled up with one byte to a length.
use crate::scripts::*;
use std::alloc::{AllocError, Global};
use std::test::Fail;

// The first bytes, the byte after them, the length of all, and what is printed.
type Filled<'a> = (&'a [u8], u8, usize, &'a str);

const HEADS: &[Filled] = &[
    (b"H Z7 6 1 ", b'1', 80, "X 51 T 1 10"),
    (b"H Z7 6 1 ", b'1', 81, "X 53 T 1 81"),
    (b"H", b' ', 80, "X 52 T 1 81"),
    (b"H", b' ', 81, "X 53 T 1 81"),
    (b"G ", b'1', 80, "X 50 T 1 1"),
    (b"G ", b'1', 81, "X 53 T 1 81"),
    (b"", b'x', 80, "X 50 T 1 1"),
    (b"", b'x', 81, "X 53 T 1 81"),
];

const LINES: &[Filled] = &[
    (b"G ", b'1', 80, "X 51 T 2 3"),
    (b"G ", b'1', 81, "X 53 T 2 81"),
    (b"G ", b'1', 60_000, "X 53 T 2 81"),
    (b"P 0 ", b'0', 80, "X 51 T 2 5"),
    (b"P 0 ", b'0', 81, "X 53 T 2 81"),
    (b"G", b' ', 80, "X 52 T 2 81"),
    (b"G", b' ', 81, "X 53 T 2 81"),
    (b"L", b'\r', 80, "X 50 T 2 1"),
    (b"L", b'\r', 81, "X 53 T 2 81"),
    // unknown commands
    (b"", b'x', 80, "X 50 T 2 1"),
    (b"", b'x', 81, "X 53 T 2 81"),
    (b"", 0xff, 81, "X 53 T 2 81"),
    (b"H Z7 6 1 ", b'1', 80, "X 50 T 2 1"),
    (b"H Z7 6 1 ", b'1', 81, "X 53 T 2 81"),
];

// a head, a put and a get
const SERVED: &[u8] = b"H Z7 6 1 12\nP 0 3\nG 0\n";

const SCRIPTS: &[Filled] = &[
    (b"", b'\n', 0, "X 50 T 1 1\n"),
    (b"", b'\n', 1, "X 50 T 1 1\n"),
    (b"", b'\n', 65_535, "X 50 T 1 1\n"),
    (b"", b'\n', 65_536, "X 54 T 1 1\n"),
    (b"", b'\n', 70_000, "X 54 T 1 1\n"),
    (SERVED, b'\n', 65_535, "M 2\nW 1\nV 3\n"),
    (SERVED, b'\n', 65_536, "X 54 T 1 1\n"),
    (SERVED, b'G', 65_535, "M 2\nW 1\nV 3\nX 53 T 4 81\n"),
    (b"", b'x', 65_535, "X 53 T 1 81\n"),
    (b"", b'x', 65_536, "X 54 T 1 1\n"),
    (b"H Z7 6 0 12\n", b'\n', 65_535, "X 11 I 1 8\n"),
    (b"H Z7 6 0 12\n", b'\n', 65_536, "X 54 T 1 1\n"),
];

#[test]
fn longest_lines(rt: HostRuntime) -> Result<(), Fail> {
    let heap = rt.alloc();
    for (place, table) in [(HEAD, HEADS), (LINE, LINES)] {
        for (i, (start, fill, length, expected)) in table.iter().enumerate() {
            let line = filled(heap, start, *fill, *length)?;
            place.check(&rt, heap, "longest", i, &line, expected)?;
        }
    }
    Ok(())
}

#[test]
fn longest_scripts(rt: HostRuntime) -> Result<(), Fail> {
    let heap = rt.alloc();
    for (i, (start, fill, length, expected)) in SCRIPTS.iter().enumerate() {
        let script = filled(heap, start, *fill, *length)?;
        let table = format!(in heap; "filled {i}")?;
        check_scripts(&rt, heap, &table, &[(&script, expected)])?;
    }
    // 65,521 lines stand before the last one
    let lines = filled(heap, b"H Z7 6 1 12\n", b'\n', 65_532)?;
    let last = joined(heap, &lines, b"G 2", b"")?;
    let ended = joined(heap, &lines, b"G 2", b"\n")?;
    check_scripts(
        &rt,
        heap,
        "many lines",
        &[(&last, "M 2\nX 40 S 65522 3\n"), (&ended, "X 54 T 1 1\n")],
    )
}

pub fn filled(heap: Global, start: &[u8], fill: u8, length: usize) -> Result<Vec<u8>, AllocError> {
    let mut bytes = Vec::new(heap);
    bytes.extend_from_slice(start)?;
    bytes.resize(length, fill)?;
    Ok(bytes)
}
