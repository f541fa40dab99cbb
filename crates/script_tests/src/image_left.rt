//! The image that a script leaves, byte for byte, or that it leaves none.
//! The bytes are worked out from the layout of a flash image: P, the wear of each page, c, and then the cells, where a
//! set cell is a 0 bit, and cell i is bit i of the page.
use crate::lengths::filled;
use crate::scripts::*;
use crate::wear::wearing_script;
use crate::whole::{RENEWAL_IN_PAGE_1, SAMPLE};
use images::flash::MAX_IMAGE;
use script::script::print_script;
use std::alloc::Global;
use std::process::Abort;
use std::test::Fail;

// what the lent bytes are before
const LENT: u8 = 0xaa;

// A script leaves this image, or none; the lent bytes after it stay as they were.
fn check_left(
    rt: &impl Abort,
    heap: Global,
    name: &str,
    script: &[u8],
    expected: Option<&[u8]>,
) -> Result<(), Fail> {
    let mut image = [LENT; MAX_IMAGE];
    let outcome = print_script(script, &mut image, Vec::new(heap));
    outcome.written?;
    let left = outcome.size.and_then(|size| image.get(..size));
    assert_eq!(rt; left, expected, "{name}");
    let used = expected.map_or(0, |bytes| bytes.len());
    let kept = image.iter().skip(used).all(|byte| *byte == LENT);
    assert!(rt; kept, "{name}: a byte after the image is altered");
    Ok(())
}

const LEFT: &[(&str, &[u8], &[u8])] = &[
    // The renewal writes record 0 with 3, which is the label of cell 2, and record 1 again with 2, which is that of its
    // second cell, cell 4. So bits 2 and 4 are 0: FF - 04 - 10 = EB.
    ("sample", SAMPLE, &[1, 0, 0, 0, 1, 0, 6, 0xeb]),
    // Page 0 was not erased: record 0 was put to 2, the label of cell 1, FF - 02 = FD. In page 1 the renewal writes
    // record 2 with 3, cell 2, and record 3 again with 3, which is cell 5: FF - 04 - 20 = DB.
    (
        "renewal in page 1",
        RENEWAL_IN_PAGE_1,
        &[2, 0, 0, 0, 0, 0, 0, 0, 1, 0, 6, 0xfd, 0xdb],
    ),
    ("head alone", b"H X2 3 1 6", &[1, 0, 0, 0, 0, 0, 6, 0xff]),
    // 12 cells take two bytes, whose last four bits are unused and 1
    (
        "two bytes to a page",
        b"\nH Z7 6 2 12\n",
        &[2, 0, 0, 0, 0, 0, 0, 0, 0, 0, 12, 0xff, 0xff, 0xff, 0xff],
    ),
    // a get, a put of the held value, and lines refused by 41, 40, 43 and 50 mark no cell and erase no page
    (
        "nothing done",
        b"H X2 3 1 6\nG 0\nP 0 0\nP 0 4\nP 2 1\nR 0 1\nx\n",
        &[1, 0, 0, 0, 0, 0, 6, 0xff],
    ),
];

#[test]
fn images_byte_for_byte(rt: HostRuntime) -> Result<(), Fail> {
    let heap = rt.alloc();
    for (name, script, image) in LEFT {
        check_left(&rt, heap, name, script, Some(image))?;
    }
    // 10,000 renewals are hexadecimal 2710. The last one that was accepted wrote 1, the label of cell 0: FF - 01 = FE.
    let worn: &[u8] = &[1, 0, 0, 0x27, 0x10, 0, 2, 0xfe];
    check_left(&rt, heap, "worn", &wearing_script(heap)?, Some(worn))
}

// 64 pages of 1,024 cells: P is 40, four bytes of wear for each page end at 257, c is 04 00, and 128 bytes for each
// page end with the last byte that is lent.
#[test]
fn the_largest_image(rt: HostRuntime) -> Result<(), Fail> {
    let heap = rt.alloc();
    let mut largest = Vec::new(heap);
    largest.push(0x40)?;
    largest.resize(257, 0)?;
    largest.extend_from_slice(&[4, 0])?;
    largest.resize(259 + 64 * 128, 0xff)?;
    check_left(&rt, heap, "largest", b"H X1 1 64 1024", Some(&largest))
}

// Scripts that are refused whole. A put that a store would serve stands after each head.
const NONE_LEFT: &[Case] = &[
    (b"", "X 50 T 1 1\n"),
    (b"\n\n", "X 50 T 1 1\n"),
    (b"P 0 1\nH X2 3 1 6\nP 0 1\n", "X 50 T 1 1\n"),
    (b"H X2 3 1\nP 0 1\n", "X 52 T 1 9\n"),
    (b"H x2 3 1 6\nP 0 1\n", "X 51 T 1 3\n"),
    (b"H X2 3 0 6\nP 0 1\n", "X 11 I 1 8\n"),
    (b"H X2 3 65 6\nP 0 1\n", "X 11 I 1 8\n"),
    (b"H X2 3 1 0\nP 0 1\n", "X 12 I 1 10\n"),
    (b"H X2 3 1 1025\nP 0 1\n", "X 12 I 1 10\n"),
    (b"H X7 3 1 6\nP 0 1\n", "X 30 M 1 3\n"),
    (b"H X2 64 1 64\nP 0 1\n", "X 31 M 1 6\n"),
    (b"H X2 3 1 2\nP 0 1\n", "X 32 M 1 6\n"),
];

#[test]
fn a_script_that_is_refused_leaves_no_image(rt: HostRuntime) -> Result<(), Fail> {
    let heap = rt.alloc();
    for (script, expected) in NONE_LEFT {
        check_none_left(&rt, heap, script, expected)?;
    }
    let too_long = filled(heap, SAMPLE, b'\n', 65_536)?;
    check_none_left(&rt, heap, &too_long, "X 54 T 1 1\n")
}

fn check_none_left(
    rt: &impl Abort,
    heap: Global,
    script: &[u8],
    expected: &str,
) -> Result<(), Fail> {
    check_scripts(rt, heap, "none left", &[(script, expected)])?;
    check_left(rt, heap, expected, script, None)
}
