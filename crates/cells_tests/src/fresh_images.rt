//! Fresh flash images, and the listing of a flash image.
//! Lengths and counts are reckoned by hand from the layout of an image.
use crate::sample_images::FLASH;
use images::fault::ImageFault;
use images::flash::MAX_IMAGE;
use images::format::Format;
use images::fresh::write_fresh;
use images::layout::MAX_PAGES;
use listing::listing::list_flash;
use listing::report::PageReport;
use std::test::Fail;

#[test]
fn a_fresh_image_byte_by_byte(rt: HostRuntime) -> Result<(), Fail> {
    let cases: [(usize, usize, &[u8]); 2] = [
        (1, 1, &[1, 0, 0, 0, 0, 0, 1, 0xff]),
        (
            2,
            12,
            &[2, 0, 0, 0, 0, 0, 0, 0, 0, 0, 12, 0xff, 0xff, 0xff, 0xff],
        ),
    ];
    for (pages, width, bytes) in cases {
        let mut image = [0xaa; MAX_IMAGE];
        let size = write_fresh(&mut image, pages, width)?;
        assert_eq!(rt; &image[..size], bytes);
    }
    Ok(())
}

#[test]
fn fresh_images_are_good_up_to_the_bounds(rt: HostRuntime) -> Result<(), Fail> {
    let cases = [
        (1, 1, 8),
        (2, 12, 15),
        (64, 1, 323),
        (1, 1_024, 135),
        (64, 1_024, 8_451),
    ];
    for (pages, width, length) in cases {
        let mut image = [0xaa; MAX_IMAGE];
        let size = write_fresh(&mut image, pages, width)?;
        let layout = Format::Flash.check(&image[..size])?;
        assert_eq!(rt; (layout.pages, layout.width), (pages, width));
        assert_eq!(rt; size, length, "{pages} pages of {width}");
    }
    Ok(())
}

#[test]
fn fresh_images_past_the_bounds_are_refused(rt: HostRuntime) {
    let cases = [
        (0, 1, ImageFault::Pages),
        (65, 1, ImageFault::Pages),
        (257, 1, ImageFault::Pages),
        (1, 0, ImageFault::Width),
        (1, 1_025, ImageFault::Width),
        (1, 65_537, ImageFault::Width),
        (0, 0, ImageFault::Pages),
        (usize::MAX, usize::MAX, ImageFault::Pages),
    ];
    let mut image = [0xaa; MAX_IMAGE];
    for (pages, width, fault) in cases {
        assert_eq!(rt; write_fresh(&mut image, pages, width), Err(fault));
    }
}

fn report(wear: u32, set: usize) -> PageReport {
    PageReport { wear, set }
}

// Each case has the counts of the two pages: the wear, and how many cells are set.
#[test]
fn a_listing_counts_each_page(rt: HostRuntime) -> Result<(), Fail> {
    let worn = [
        2, 0, 0, 0, 0, 0, 0, 0x27, 0x10, 0, 9, 0xff, 0xff, 0x00, 0xfe,
    ];
    let cases = [
        (FLASH, 12, [report(0, 2), report(3, 3)]),
        (worn, 9, [report(0, 0), report(10_000, 9)]),
    ];
    for (bytes, width, expected) in cases {
        let mut image = bytes;
        let mut reports = [PageReport::default(); MAX_PAGES];
        let layout = list_flash(&mut image, &mut reports)?;
        assert_eq!(rt; image, bytes, "nothing is altered");
        assert_eq!(rt; (layout.pages, layout.width), (2, width));
        assert_eq!(rt; &reports[..2], expected.as_slice());
    }
    Ok(())
}

// Each place begins with what no page of this image has.
#[test]
fn a_listing_of_the_largest_image(rt: HostRuntime) -> Result<(), Fail> {
    let mut image = [0xaa; MAX_IMAGE];
    assert_eq!(rt; write_fresh(&mut image, 64, 1_024), Ok(8_451));
    let mut reports = [report(1, 1); MAX_PAGES];
    let layout = list_flash(&mut image, &mut reports)?;
    assert_eq!(rt; (layout.pages, layout.width), (64, 1_024));
    assert_eq!(rt; reports, [report(0, 0); 64]);
    Ok(())
}

#[test]
fn a_listing_of_refused_bytes_is_the_fault(rt: HostRuntime) -> Result<(), Fail> {
    let cases: [(&[u8], ImageFault); 6] = [
        (&[], ImageFault::Short),
        (&[0x41], ImageFault::Pages),
        (&[1, 0, 0, 0, 0, 4, 1], ImageFault::Width),
        (&[1, 0, 0, 0, 0, 0, 6, 0xff, 0x00], ImageFault::Trailing),
        (&[1, 0, 0, 0, 0, 0, 6, 0x7f], ImageFault::Stray),
        (&[1, 0, 0, 0x27, 0x11], ImageFault::Wear),
    ];
    for (bytes, fault) in cases {
        let mut image = bytes.to_vec(rt.alloc())?;
        let mut reports = [PageReport::default(); MAX_PAGES];
        assert_eq!(rt; list_flash(&mut image, &mut reports), Err(fault));
        assert_eq!(rt; image.as_slice(), bytes, "nothing is altered");
    }
    Ok(())
}
