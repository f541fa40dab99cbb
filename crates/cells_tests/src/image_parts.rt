// The flash part and the fuse bank: what they read in an image, and which bytes they write.
// An image is compared whole after each call that may write.
use crate::arrays::{check_counts, check_erasable_counts, check_set};
use crate::sample_images::{FLASH, FUSE};
use cells::array::{CellArray, Erasable};
use cells::fault::DeviceFault;
use images::flash::{Flash, FlashPart};
use images::fuse::{Fuse, FuseBank};
use images::part::{Kind, Part};
use std::process::Abort;

// The image after a mark, and the answer.
fn mark<K: Kind + Drop, const N: usize>(
    mut image: [u8; N],
    page: usize,
    cell: usize,
) -> ([u8; N], Result<(), DeviceFault>) {
    let answer = Part::<K>::over(&mut image).mark(page, cell);
    (image, answer)
}

// A mark makes this of the image, and the same mark again alters nothing.
fn check_mark<K: Kind + Drop, const N: usize>(
    rt: &impl Abort,
    image: [u8; N],
    page: usize,
    cell: usize,
    expected: [u8; N],
) {
    assert_eq!(rt; mark::<K, N>(image, page, cell), (expected, Ok(())));
    assert_eq!(rt;
        mark::<K, N>(expected, page, cell),
        (expected, Ok(())),
        "marked again"
    );
}

// The image after an erase, and the answer.
fn flash_erase(mut image: [u8; 15], page: usize) -> ([u8; 15], Result<(), DeviceFault>) {
    let answer = FlashPart::over(&mut image).erase(page);
    (image, answer)
}

// The cells that FLASH and FUSE both hold.
fn check_cells<A: CellArray>(rt: &impl Abort, array: &mut A) {
    check_counts(rt, array, 2, 12);
    check_set(rt, array, 0, &[0, 9]);
    check_set(rt, array, 1, &[2, 3, 11]);
}

#[test]
fn parts_read_their_images(rt: HostRuntime) {
    let mut image = FLASH;
    let mut part = FlashPart::over(&mut image);
    check_cells(&rt, &mut part);
    check_erasable_counts(&rt, &mut part, 2, 12);
    assert_eq!(rt; part.wear(0), Ok((0, 10_000)));
    assert_eq!(rt; part.wear(1), Ok((3, 10_000)));
    assert_eq!(rt; image, FLASH, "looks and refusals write nothing");
    let mut image = FUSE;
    check_cells(&rt, &mut FuseBank::over(&mut image));
    assert_eq!(rt; image, FUSE, "looks and refusals write nothing");
}

#[test]
fn a_flash_mark_alters_one_bit(rt: HostRuntime) {
    let cases = [
        (0, 0, [0xfe, 0xfd, 0xf3, 0xf7]),
        (0, 5, [0xde, 0xfd, 0xf3, 0xf7]),
        (0, 7, [0x7e, 0xfd, 0xf3, 0xf7]),
        (0, 8, [0xfe, 0xfc, 0xf3, 0xf7]),
        (0, 11, [0xfe, 0xf5, 0xf3, 0xf7]),
        (1, 0, [0xfe, 0xfd, 0xf2, 0xf7]),
        (1, 8, [0xfe, 0xfd, 0xf3, 0xf6]),
        (1, 11, [0xfe, 0xfd, 0xf3, 0xf7]),
    ];
    for (page, cell, pages) in cases {
        let mut expected = FLASH;
        expected[11..15].copy_from_slice(&pages);
        check_mark::<Flash, 15>(&rt, FLASH, page, cell, expected);
    }
}

// Page 0 of FLASH, but for its wear: 255 times, 9,999 times and 10,000 times.
#[test]
fn a_flash_erase_writes_its_page_and_count(rt: HostRuntime) {
    let past = DeviceFault::NoPage {
        page: 2,
        cell: None,
    };
    let cases = [
        (
            FLASH,
            1,
            [2, 0, 0, 0, 0, 0, 0, 0, 4, 0, 12, 0xfe, 0xfd, 0xff, 0xff],
            Ok(()),
        ),
        (
            [2, 0, 0, 0, 0xff, 0, 0, 0, 3, 0, 12, 0xfe, 0xfd, 0xf3, 0xf7],
            0,
            [2, 0, 0, 1, 0, 0, 0, 0, 3, 0, 12, 0xff, 0xff, 0xf3, 0xf7],
            Ok(()),
        ),
        (
            [
                2, 0, 0, 0x27, 0x0f, 0, 0, 0, 3, 0, 12, 0xfe, 0xfd, 0xf3, 0xf7,
            ],
            0,
            [
                2, 0, 0, 0x27, 0x10, 0, 0, 0, 3, 0, 12, 0xff, 0xff, 0xf3, 0xf7,
            ],
            Ok(()),
        ),
        (
            [
                2, 0, 0, 0x27, 0x10, 0, 0, 0, 3, 0, 12, 0xfe, 0xfd, 0xf3, 0xf7,
            ],
            0,
            [
                2, 0, 0, 0x27, 0x10, 0, 0, 0, 3, 0, 12, 0xfe, 0xfd, 0xf3, 0xf7,
            ],
            Err(DeviceFault::Worn { page: 0 }),
        ),
        (FLASH, 2, FLASH, Err(past)),
    ];
    for (image, page, after, answer) in cases {
        assert_eq!(rt; flash_erase(image, page), (after, answer));
    }
}

#[test]
fn a_fuse_mark_alters_one_bit(rt: HostRuntime) {
    let cases = [
        (0, 0, [2, 0, 12, 0x01, 0x02, 0x0c, 0x08]),
        (0, 5, [2, 0, 12, 0x21, 0x02, 0x0c, 0x08]),
        (0, 7, [2, 0, 12, 0x81, 0x02, 0x0c, 0x08]),
        (0, 8, [2, 0, 12, 0x01, 0x03, 0x0c, 0x08]),
        (0, 11, [2, 0, 12, 0x01, 0x0a, 0x0c, 0x08]),
        (1, 0, [2, 0, 12, 0x01, 0x02, 0x0d, 0x08]),
        (1, 8, [2, 0, 12, 0x01, 0x02, 0x0c, 0x09]),
        (1, 11, [2, 0, 12, 0x01, 0x02, 0x0c, 0x08]),
    ];
    for (page, cell, expected) in cases {
        check_mark::<Fuse, 7>(&rt, FUSE, page, cell, expected);
    }
}

#[test]
fn a_part_over_refused_bytes_has_no_pages(rt: HostRuntime) {
    let mut followed = [1, 0, 0, 0, 0, 0, 6, 0xff, 0x00];
    check_erasable_counts(&rt, &mut FlashPart::over(&mut followed), 0, 0);
    assert_eq!(rt; followed, [1, 0, 0, 0, 0, 0, 6, 0xff, 0x00]);
    check_erasable_counts(&rt, &mut FlashPart::over(&mut []), 0, 0);
    let mut stray = [1, 0, 6, 0x80];
    check_counts(&rt, &mut FuseBank::over(&mut stray), 0, 0);
    assert_eq!(rt; stray, [1, 0, 6, 0x80]);
}
