//! The flash part: pages of cells in a flash image that is lent to it.
//! A set cell is a 0 bit. An erase writes the page's own bytes and its wear count, whose limit is 10,000.
ghost use Rattle.std.specs.Prelude.{◌≡◌, ◌+◌, ◌*◌, ◌<◌, [], ◌∷◌, length};
ghost use Rattle.images.specs.declared.format.Format.TheVariants.{Flash as FlashFormat};
ghost use Rattle.cells.specs.Device.{Erases, Kept};
ghost use Rattle.cells.specs.Steps.{erase_step};
ghost use Rattle.std.proofs.Common.{lit≤};
ghost use Rattle.images.specs.Image.{count_of, part_cells};
ghost use Rattle.images.specs.Check.{Accepted};
ghost use Rattle.images.specs.Bytes.{StepsBytes};

use crate::fill::fill;
use crate::format::Format;
use crate::part::{Kind, Part};
use cells::array::{CellArray, Erasable};
use cells::fault::DeviceFault;

/// How often a page may be erased.
pub const LIMIT: u32 = 10_000;

/// The bytes of the largest flash image, of 64 pages of 1,024 cells.
pub const MAX_IMAGE: usize = 8_451;

/// The kind of a flash part: its images have wear counts.
#[derive(Clone, Copy)]
pub struct Flash;

impl Kind for Flash {
    ghost FORMAT = { FlashFormat };

    const FORMAT: Format = Format::Flash;
}

/// A flash part over an image that is lent to it.
pub type FlashPart<'a> = Part<'a, Flash>;

impl Erasable for Part<'_, Flash> {
    ghost lasting = { λ _. lit≤ tt };

    fn wear(&self, page: usize) -> Result<(u32, u32), DeviceFault> {
        self.check_page(page)?;
        Ok((count(self.image, page).min(LIMIT), LIMIT))
    }

    fn erase(&mut self, page: usize) -> Result<(), DeviceFault>
        ensures kept { Kept (λ a. a.image.ghost_name ∷ [])
            (λ a. Accepted FlashFormat a.layout a.image.now) self.old self.new }
        ensures erases { Erases page (part_cells FlashFormat self.old.layout self.old.image.now)
            (part_cells FlashFormat self.new.layout self.new.image.now) result }
        ensures step { (self.new.layout ≡ self.old.layout)
            × StepsBytes FlashFormat self.old.layout (erase_step page result)
            self.old.image.now self.new.image.now }
    {
        let worn = (*self).check_erase(page)?;
        let at = self.layout.page_at(Format::Flash, page);
        let end = at + self.layout.page_bytes();
        fill(&mut self.image[at..end], 0xff);
        self.image[1 + 4 * page..5 + 4 * page].copy_from_slice(&(worn + 1).to_be_bytes());
        Ok(())
    }
}

// A page's wear count as it stands in the image.
pub(crate) fn count(image: &[u8], page: usize) -> u32
    requires { 4 * page + 4 < length image.now }
    ensures { result ≡ count_of image.now page }
{
    let at = 1 + 4 * page;
    u32::from_be_bytes([image[at], image[at + 1], image[at + 2], image[at + 3]])
}
