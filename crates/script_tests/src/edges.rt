//! The table of edges, row by row.
//! A line that is no head, and the second head, stand at line 2.
use crate::scripts::*;
use std::test::Fail;

const HEADS: &[Case] = &[
    (b"H", "X 52 T 1 2"),
    (b"H Z65 0 0 0", "X 11 I 1 9"),
    (b"H Z65 0 1 0", "X 12 I 1 11"),
    (b"H Z65 0 1 1", "X 30 M 1 3"),
    (b"H Z7 64 1 64", "X 31 M 1 6"),
    (b"H Z7 6 1 5", "X 32 M 1 6"),
    (b"H Z2.Z3.Z4 6 1 12", "X 51 T 1 3"),
    (b"H z7 06 1 12", "X 51 T 1 3"),
];

const LINES: &[Case] = &[
    (b"L ", "X 52 T 2 3"),
    (b"G ", "X 51 T 2 3"),
    (b"G  0", "X 52 T 2 5"),
    (b"P 0 01", "X 51 T 2 5"),
    (b"P 2 7", "X 40 S 2 3"),
    (b"P 1 7", "X 41 S 2 5"),
    (b"G0", "X 50 T 2 1"),
    (b"H Z7 6 1 12", "X 50 T 2 1"),
    (b"L", "N 0 0 0 -"),
];

#[test]
fn table_of_edges(rt: HostRuntime) -> Result<(), Fail> {
    HEAD.check_all(&rt, rt.alloc(), "heads", HEADS)?;
    LINE.check_all(&rt, rt.alloc(), "lines", LINES)
}
