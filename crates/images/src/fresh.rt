//! Fresh flash images: every cell unset, no page ever erased.
//! One is written into bytes that the caller lends, which have room for the largest, so that no memory is needed.
ghost use Rattle.images.specs.Fresh.{WritesBlank, WritesFresh};

use crate::fault::ImageFault;
use crate::fill::fill;
use crate::flash::MAX_IMAGE;
use crate::format::Format;
use crate::layout::Layout;

/// Writes a fresh flash image of these counts into the first of the bytes, and answers how many bytes it has. The bytes
/// after it are left as they are. The counts are refused as they would be in an image, by 11 and then by 12, and then no
/// byte is altered.
pub fn write_fresh(
    image: &mut [u8; MAX_IMAGE],
    pages: usize,
    width: usize,
) -> Result<usize, ImageFault>
    ensures { WritesFresh pages width image.old image.new result }
{
    let layout = Layout::of(pages, width)?;
    Ok(write_blank(image, layout))
}

/// Writes the image of a layout in the same way; nothing is refused. That of no pages, or of no cells, is no good image.
// Both casts are proved to lose nothing; a `try_from` would add a refusal that never comes.
pub fn write_blank(image: &mut [u8; MAX_IMAGE], layout: Layout) -> usize
    ensures { WritesBlank layout.pages layout.width image.old image.new result }
{
    let size = layout.size(Format::Flash);
    let width_at = 1 + 4 * layout.pages;
    let pages_at = width_at + 2;
    image[0] = layout.pages as u8;
    fill(&mut image[1..width_at], 0);
    image[width_at..pages_at].copy_from_slice(&(layout.width as u16).to_be_bytes());
    fill(&mut image[pages_at..size], 0xff);
    size
}
