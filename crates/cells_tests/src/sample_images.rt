// Images that the tests begin with.
// FLASH and FUSE hold the same cells: in 2 pages of 12, the cells 0 and 9 of page 0 and 2, 3 and 11 of page 1.
use images::format::Format;
use std::alloc::{AllocError, Global};

// Page 0 has wear 0, and page 1 wear 3.
pub const FLASH: [u8; 15] = [
    0x02, 0x00, 0x00, 0x00, 0x00, 0x00, 0x00, 0x00, 0x03, 0x00, 0x0c, 0xfe, 0xfd, 0xf3, 0xf7,
];

pub const FUSE: [u8; 7] = [0x02, 0x00, 0x0c, 0x01, 0x02, 0x0c, 0x08];

// The bytes of an image with no cell set and no wear, whatever the counts.
pub fn unset_image(
    heap: Global,
    format: Format,
    pages: u8,
    width: u16,
) -> Result<Vec<u8>, AllocError> {
    let page_bytes = usize::from(width.div_ceil(8));
    let (count_bytes, unset) = match format {
        Format::Fuse => (0, 0x00),
        Format::Flash => (4, 0xff),
    };
    let pages_at = 3 + count_bytes * usize::from(pages);
    let mut image = Vec::new(heap);
    image.push(pages)?;
    image.resize(pages_at - 2, 0)?;
    image.extend_from_slice(&width.to_be_bytes())?;
    image.resize(pages_at + usize::from(pages) * page_bytes, unset)?;
    Ok(image)
}
