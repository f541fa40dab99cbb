//! Whole scripts: what is printed of calls that follow each other.
use crate::scripts::*;
use std::test::Fail;

// The sample script, without the end of its last line.
pub const SAMPLE: &[u8] = b"H X2 3 1 6\nP 0 1\nP 0 0\nP 1 2\nP 0 3\nR 1 3\nS 0 3\nG 1\nG 2\nL";

pub const SAMPLE_PRINTS: &str =
    "M 2\nW 1\nW 2\nW 1\nX 42 S 5 1\nX 43 S 6 1\nE 2\nV 2\nX 40 S 9 3\nN 3 1 6 300\n";

// A script that renews in the second of its two pages.
pub const RENEWAL_IN_PAGE_1: &[u8] =
    b"H X2 3 2 6\nP 2 1\nP 2 0\nP 3 3\nP 0 2\nS 2 3\nG 0\nG 1\nG 2\nG 3\nP 4 0\nL";

const COURSES: &[Case] = &[
    // empty lines are counted
    (
        b"\nH X2 3 1 6\n\n\nG 2\nG 1\n\nP 2 9\nP 1 9\n\n\n\nH X2 3 1 6\nx\nL\n\n",
        "M 2\nX 40 S 5 3\nV 0\nX 40 S 8 3\nX 41 S 9 5\nX 50 T 13 1\nX 50 T 14 1\nN 0 0 0 -\n",
    ),
    // ends of lines by two bytes
    (b"H Z7 6 1 12\r\nG 0\r\n", "X 51 T 1 10\n"),
    (
        b"H Z7 6 1 12\nP 0 1\r\nG 0\r\nL\r\n\r\nG 0",
        "M 2\nX 51 T 2 5\nX 51 T 3 3\nX 50 T 4 1\nX 50 T 5 1\nV 0\n",
    ),
    // columns of longer words
    (
        b"H Z7 6 1 72\nP 11 7\nG 12\nP 11 6\nG 11\nR 10 7\nS 10 10\nP 100 7\nR 11 6\nS 11 6",
        "M 12\nX 41 S 2 6\nX 40 S 3 3\nW 1\nV 6\nX 41 S 6 6\nX 41 S 7 6\nX 40 S 8 3\nX 43 S 9 1\nW 0\n",
    ),
    // the only label is 1: a value that no renewal can write, and a renewal that marks nothing
    (
        b"H Z4 1 1 2\nP 0 2\nR 0 2\nS 0 2\nS 2 2\nS 0 4\nR 0 4\n\
          S 0 1\nR 0 1\nS 0 2\nL\nS 0 0\nG 0\nL",
        "M 2\nX 42 S 2 1\nX 44 S 3 1\nX 44 S 4 1\nX 40 S 5 3\nX 41 S 6 5\nX 41 S 7 5\n\
          W 1\nX 43 S 9 1\nX 44 S 10 1\nN 1 0 1 -\nE 0\nV 0\nN 1 1 1 100\n",
    ),
    // labels 1 to 6 in turn, and the held value in a record with no cell left
    (
        b"H Z7 6 1 12\nP 0 1\nP 0 3\nP 0 6\nP 0 3\nP 0 1\nP 0 0\n\
          P 0 0\nP 0 1\nR 0 0\nS 0 0\nS 0 5\nG 0\nL",
        "M 2\nW 1\nW 1\nW 1\nW 1\nW 1\nW 1\n\
          W 0\nX 42 S 9 1\nX 43 S 10 1\nW 0\nE 1\nV 5\nN 6 1 7 600\n",
    ),
    // labels 4, 5 and 6 are set, and then 1, 2 and 3 at once
    (
        b"H Z7 6 1 6\nP 0 4\nP 0 2\nP 0 1\nP 0 0\nL",
        "M 1\nW 1\nW 1\nW 1\nW 3\nN 4 0 6 -\n",
    ),
    (
        RENEWAL_IN_PAGE_1,
        "M 4\nW 1\nW 2\nW 1\nW 1\nE 2\nV 2\nV 0\nV 3\nV 3\nX 40 S 11 3\nN 4 1 7 400\n",
    ),
    // five changes and eight renewals
    (
        b"H Z3 2 1 2\nP 0 1\nP 0 0\nR 0 1\nP 0 0\nR 0 1\nP 0 0\nR 0 1\nP 0 0\nR 0 1\n\
          R 0 2\nR 0 1\nL\nR 0 2\nR 0 1\nL",
        "M 1\nW 1\nW 1\nE 1\nW 1\nE 1\nW 1\nE 1\nW 1\nE 1\n\
          E 1\nE 1\nN 5 6 11 83\nE 1\nE 1\nN 5 8 13 63\n",
    ),
];

#[test]
fn whole_scripts(rt: HostRuntime) -> Result<(), Fail> {
    let heap = rt.alloc();
    let ended = joined(heap, SAMPLE, b"\n", b"")?;
    check_scripts(
        &rt,
        heap,
        "sample",
        &[(SAMPLE, SAMPLE_PRINTS), (&ended, SAMPLE_PRINTS)],
    )?;
    check_scripts(&rt, heap, "courses", COURSES)
}
