//! The layout of an image: how many pages it has, and how many cells a page.
//! Both are within the bounds of every cell array.
ghost use Rattle.std.specs.Prelude.{◌≤◌};

use crate::fault::ImageFault;

/// The most pages of an image.
pub const MAX_PAGES: usize = 64;

/// The most cells of a page.
pub const MAX_WIDTH: usize = 1024;

/// So many pages of so many cells, within the bounds of every image. Bytes that are no good image have none of either.
#[derive(Clone, Copy, PartialEq, Debug)]
pub struct Layout {
    pub pages: usize,
    pub width: usize,
    ghost few: { pages ≤ 64 },
    ghost narrow: { width ≤ 1024 },
}

impl Layout {
    ghost use Rattle.std.specs.Prelude.{◌≡◌, ◌<◌};
    ghost use Rattle.images.specs.Check.{page_bound_rows, width_bound_rows, ChecksStep};
    ghost use Rattle.images.specs.Fresh.{fresh_rows};

    // no pages and no width
    pub(crate) const NONE: Layout = Layout { pages: 0, width: 0 };

    /// The layout of an image of so many pages of so many cells. Refused by 11 for a count of pages that no image can
    /// have, and then by 12 for a width that none can have.
    pub fn of(pages: usize, width: usize) -> Result<Layout, ImageFault>
        ensures { ChecksStep (fresh_rows pages width)
            (λ l. (l.pages ≡ pages) × (l.width ≡ width)) result }
    {
        Layout::check_pages(pages)?;
        Layout::check_width(width)?;
        Ok(Layout { pages, width })
    }

    /// Whether an image can have so many pages; refused by 11.
    // The two counts have a check each, since an image has other rows between; one function for both would be handed the
    // bound and the fault of each.
    pub fn check_pages(pages: usize) -> Result<(), ImageFault>
        ensures { ChecksStep (page_bound_rows pages) (λ _. (0 < pages) × (pages ≤ 64)) result }
    {
        if pages == 0 || pages > MAX_PAGES {
            return Err(ImageFault::Pages);
        }
        Ok(())
    }

    /// Whether its pages can have so many cells; refused by 12.
    pub fn check_width(width: usize) -> Result<(), ImageFault>
        ensures { ChecksStep (width_bound_rows width)
            (λ _. (0 < width) × (width ≤ 1024)) result }
    {
        if width == 0 || width > MAX_WIDTH {
            return Err(ImageFault::Width);
        }
        Ok(())
    }
}
