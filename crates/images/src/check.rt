// The check of an image, in reading order: the layout of a good one, else the first row of the table that holds.
// Each byte is read a bounded number of times, whatever the bytes are.
ghost use Rattle.std.specs.Prelude.{◌≡◌, ℕ, ◌<◌, ◌≤◌, length, Decides};
ghost use Rattle.images.specs.Image.{size, pages_of, width_of};
ghost use Rattle.images.specs.Check.{page_count_rows, wear_counts_below, wear_rows, width_rows, body_rows, Stray, Checks, ReadsAs, ChecksStep};
ghost use Rattle.images.specs.Written.{Exact, ReadBack, WrittenOut};

use crate::fault::ImageFault;
use crate::flash;
use crate::format::Format;
use crate::layout::Layout;

impl Format {
    // Any bytes at all are taken. What is accepted is exactly what some meaning in the bounds is written out as, and
    // it is read back as that meaning.
    pub fn check(self, image: &[u8]) -> Result<Layout, ImageFault>
        ensures checks { Checks self image.now result }
        ensures exact { Exact self image.now result }
        ensures read_back { ReadBack self image.now }
    {
        self.read_layout(image)
    }

    // The layout of an accepted image. A refused one has by the rules no pages and no width, which is a layout too, and
    // so this is no `Option`.
    pub(crate) fn layout_of(self, image: &[u8]) -> Layout
        ensures reads { ReadsAs self image.now result }
        ensures written { WrittenOut self image.now }
    {
        self.check(image).unwrap_or(Layout::NONE)
    }

    // The layout that the counts show, or the first row that holds. By itself, so that `check` proves its three laws of
    // the answer, and not of each of the steps.
    fn read_layout(self, image: &[u8]) -> Result<Layout, ImageFault>
        ensures { Checks self image.now result }
    {
        let pages = read_pages(image)?;
        self.check_wear(image, pages)?;
        let width = self.read_width(image, pages)?;
        let layout = Layout {
            pages: usize::from(pages),
            width,
        };
        self.check_body(image, layout)?;
        Ok(layout)
    }

    // The wear counts, where the format has any.
    fn check_wear(self, image: &[u8], pages: u8) -> Result<(), ImageFault>
        requires { pages ≡ pages_of image.now }
        ensures { ChecksStep (wear_rows self image.now) (λ _. Unit {0}) result }
    {
        match self {
            Format::Fuse => Ok(()),
            Format::Flash => check_counts(image, pages),
        }
    }

    fn read_width(self, image: &[u8], pages: u8) -> Result<usize, ImageFault>
        requires { pages ≡ pages_of image.now }
        ensures { ChecksStep (width_rows self image.now) (λ c. (c ≡ width_of self image.now) × (0 < c) × (c ≤ 1024)) result }
    {
        let at = 1 + self.count_bytes() * usize::from(pages);
        if image.len() < at + 2 {
            return Err(ImageFault::Short);
        }
        let width = usize::from(u16::from_be_bytes([image[at], image[at + 1]]));
        Layout::check_width(width)?;
        Ok(width)
    }

    // The pages, and what follows them. The format, the image and what is known of its layout go beside each other
    // through these functions; a struct of them would hold a borrow and gain a field after each.
    fn check_body(self, image: &[u8], layout: Layout) -> Result<(), ImageFault>
        ensures { ChecksStep (body_rows self layout.pages layout.width image.now) (λ _. Unit {0}) result }
    {
        let size = layout.size(self);
        if image.len() < size {
            return Err(ImageFault::Short);
        }
        if self.any_stray(image, layout) {
            return Err(ImageFault::Stray);
        }
        if image.len() > size {
            return Err(ImageFault::Trailing);
        }
        Ok(())
    }

    // Whether an unused bit of any page reads as set. Pages of whole bytes have none.
    fn any_stray(self, image: &[u8], layout: Layout) -> bool
        requires { size self layout.pages layout.width ≤ length image.now }
        ensures { Decides result ((p : ℕ) × (p < layout.pages) × Stray self layout.pages layout.width image.now p) }
    {
        layout.width % 8 != 0 && (0..layout.pages).any(|page| self.stray(image, layout, page))
    }

    // Whether one of a page does: a bit past its cells.
    fn stray(self, image: &[u8], layout: Layout, page: usize) -> bool
        requires page_lt_pages { page < layout.pages }
        requires image_fits { size self layout.pages layout.width ≤ length image.now }
        ensures { Decides result (Stray self layout.pages layout.width image.now page) }
    {
        let at = layout.page_at(self, page);
        let mut unused = layout.width..8 * layout.page_bytes();
        unused.any(|place| self.reads(image[at + place / 8], place % 8))
    }
}

// The count of pages.
fn read_pages(image: &[u8]) -> Result<u8, ImageFault>
    ensures { ChecksStep (page_count_rows image.now) (λ p. (p ≡ pages_of image.now) × (0 < p) × (p ≤ 64)) result }
{
    let [pages, ..] = image else {
        return Err(ImageFault::Short);
    };
    Layout::check_pages(usize::from(*pages))?;
    Ok(*pages)
}

// The wear counts of a flash image, each one's bytes and then its row. A loop, since two refusals take turns.
fn check_counts(image: &[u8], pages: u8) -> Result<(), ImageFault>
    ensures { ChecksStep (wear_counts_below image.now pages) (λ _. Unit {0}) result }
{
    for page in 0..usize::from(pages) {
        if image.len() < 5 + 4 * page {
            return Err(ImageFault::Short);
        }
        if flash::count(image, page) > flash::LIMIT {
            return Err(ImageFault::Wear);
        }
    }
    Ok(())
}
