// The check of an image: each row at its bound, and which of two rows comes first.
// Small images are written out whole; those at the bounds of the counts are made from them.
ghost use Rattle.std.specs.Prelude.{◌<◌};

use crate::sample_images::{FLASH, FUSE, unset_image};
use images::fault::ImageFault;
use images::format::Format;
use std::process::Abort;
use std::test::Fail;

// The pages and the width of a good image, or why it is refused. They are a pair, which keeps the tables short.
fn outcome(format: Format, image: &[u8]) -> Result<(usize, usize), ImageFault> {
    let layout = format.check(image)?;
    Ok((layout.pages, layout.width))
}

#[test]
fn flash_rows_in_reading_order(rt: HostRuntime) {
    let cases: [(&[u8], Result<(usize, usize), ImageFault>); 21] = [
        (&[], Err(ImageFault::Short)),
        (&[0x00], Err(ImageFault::Pages)),
        (&[0x41], Err(ImageFault::Pages)),
        // a wear count is judged before the next is looked for
        (&[2, 0, 0, 0x27, 0x10], Err(ImageFault::Short)),
        (&[2, 0, 0, 0x27, 0x11], Err(ImageFault::Wear)),
        (&[2, 0, 0, 0, 0, 0, 0, 0x27, 0x11], Err(ImageFault::Wear)),
        // up to 10,000, by all four bytes
        (&[1, 0, 0, 0x27, 0x0f, 0, 6, 0xff], Ok((1, 6))),
        (&[1, 0, 0, 0x27, 0x10, 0, 6, 0xff], Ok((1, 6))),
        (&[1, 0, 0, 0x27, 0x11, 0, 6, 0xff], Err(ImageFault::Wear)),
        (&[1, 0, 1, 0, 0, 0, 6, 0xff], Err(ImageFault::Wear)),
        (&[1, 1, 0, 0, 0, 0, 6, 0xff], Err(ImageFault::Wear)),
        (&[1, 0, 0, 0x27, 0x11, 0, 0], Err(ImageFault::Wear)),
        // the width before the pages
        (&[1, 0, 0, 0, 0, 0, 0], Err(ImageFault::Width)),
        (&[1, 0, 0, 0, 0, 4, 1], Err(ImageFault::Width)),
        (&[1, 0, 0, 0, 0, 0, 6, 0xff], Ok((1, 6))),
        (&[1, 0, 0, 0, 0, 0, 6, 0xc0], Ok((1, 6))),
        (&[1, 0, 0, 0, 0, 0, 8, 0x00], Ok((1, 8))),
        // a missing page, then unused bits, then what follows
        (
            &[2, 0, 0, 0, 0, 0, 0, 0, 0, 0, 6, 0x7f],
            Err(ImageFault::Short),
        ),
        (&[1, 0, 0, 0, 0, 0, 6, 0x7f], Err(ImageFault::Stray)),
        (&[1, 0, 0, 0, 0, 0, 6, 0x7f, 0x00], Err(ImageFault::Stray)),
        (
            &[1, 0, 0, 0, 0, 0, 6, 0xff, 0x00],
            Err(ImageFault::Trailing),
        ),
    ];
    for (image, expected) in cases {
        assert_eq!(rt; outcome(Format::Flash, image), expected, "{image:?}");
    }
}

#[test]
fn fuse_rows_in_reading_order(rt: HostRuntime) {
    let cases: [(&[u8], Result<(usize, usize), ImageFault>); 14] = [
        (&[], Err(ImageFault::Short)),
        (&[0x00], Err(ImageFault::Pages)),
        (&[0x41], Err(ImageFault::Pages)),
        // the width before the pages
        (&[1, 0, 0], Err(ImageFault::Width)),
        (&[1, 4, 1], Err(ImageFault::Width)),
        (&[1, 0, 6, 0x00], Ok((1, 6))),
        (&[1, 0, 6, 0x3f], Ok((1, 6))),
        (&[1, 0, 8, 0xff], Ok((1, 8))),
        // a missing page, then unused bits, then what follows
        (&[2, 0, 6, 0x80], Err(ImageFault::Short)),
        (&[1, 0, 6, 0x40], Err(ImageFault::Stray)),
        (&[1, 0, 6, 0x80], Err(ImageFault::Stray)),
        (&[1, 0, 6, 0x80, 0x00], Err(ImageFault::Stray)),
        (&[1, 0, 6, 0x00, 0x00], Err(ImageFault::Trailing)),
        (&[1, 0, 8, 0xff, 0xff], Err(ImageFault::Trailing)),
    ];
    for (image, expected) in cases {
        assert_eq!(rt; outcome(Format::Fuse, image), expected, "{image:?}");
    }
}

#[test]
fn counts_at_their_bounds(rt: HostRuntime) -> Result<(), Fail> {
    let cases = [
        (0, 1, Err(ImageFault::Pages)),
        (1, 1, Ok((1, 1))),
        (64, 1, Ok((64, 1))),
        (65, 1, Err(ImageFault::Pages)),
        (1, 0, Err(ImageFault::Width)),
        (1, 1_024, Ok((1, 1_024))),
        (1, 1_025, Err(ImageFault::Width)),
        (64, 1_024, Ok((64, 1_024))),
    ];
    for (pages, width, expected) in cases {
        for format in [Format::Flash, Format::Fuse] {
            let image = unset_image(rt.alloc(), format, pages, width)?;
            assert_eq!(rt;
                outcome(format, &image),
                expected,
                "{format:?}, {pages} pages of {width}"
            );
        }
    }
    Ok(())
}

// Each cut of a good image is short, and the whole is good.
fn check_cuts(rt: &impl Abort, format: Format, image: &[u8]) {
    // A loop, since each turn asserts something of its length.
    for length in 0..image.len() {
        assert_eq!(rt;
            outcome(format, &image[..length]),
            Err(ImageFault::Short),
            "{format:?}, {length} bytes"
        );
    }
    assert_eq!(rt; outcome(format, image), Ok((2, 12)));
}

#[test]
fn only_cuts_of_a_good_image_are_short(rt: HostRuntime) {
    check_cuts(&rt, Format::Flash, &FLASH);
    check_cuts(&rt, Format::Fuse, &FUSE);
}

// Bits of the last byte of a page are turned over, one at a time: the byte has four cells and four unused bits.
fn check_last_byte<const N: usize>(rt: &impl Abort, format: Format, image: [u8; N], at: usize)
    requires { at < N }
{
    let cases = [
        (0x01, Ok((2, 12))),
        (0x08, Ok((2, 12))),
        (0x10, Err(ImageFault::Stray)),
        (0x20, Err(ImageFault::Stray)),
        (0x40, Err(ImageFault::Stray)),
        (0x80, Err(ImageFault::Stray)),
    ];
    for (bit, expected) in cases {
        let mut turned = image;
        turned[at] ^= bit;
        assert_eq!(rt;
            outcome(format, &turned),
            expected,
            "{format:?}, byte {at}, bit {bit:#x}"
        );
    }
}

#[test]
fn only_unused_bits_are_stray(rt: HostRuntime) {
    check_last_byte(&rt, Format::Flash, FLASH, 12);
    check_last_byte(&rt, Format::Flash, FLASH, 14);
    check_last_byte(&rt, Format::Fuse, FUSE, 4);
    check_last_byte(&rt, Format::Fuse, FUSE, 6);
}
