//! Faults of images: why one was refused.
//! Each refusal stands for one number of the table of refusals.
ghost use Rattle.std.specs.Prelude.{◌≡◌};
ghost use Rattle.images.specs.Faults.{image_number};

/// A refused image.
#[derive(Clone, Copy, PartialEq, Debug)]
pub enum ImageFault {
    /// The bytes end inside a count or a section.
    Short,
    /// The count of pages is 0 or above 64.
    Pages,
    /// The width is 0 or above 1,024.
    Width,
    /// Bytes follow the last page.
    Trailing,
    /// A bit that belongs to no cell reads as set.
    Stray,
    /// A wear count is above 10,000.
    Wear,
}

impl ImageFault {
    /// The number of the table of refusals, by cases, as that table has it.
    pub fn number(self) -> u32
        ensures { result ≡ image_number self }
    {
        match self {
            ImageFault::Short => 10,
            ImageFault::Pages => 11,
            ImageFault::Width => 12,
            ImageFault::Trailing => 13,
            ImageFault::Stray => 14,
            ImageFault::Wear => 15,
        }
    }
}
