//! What a listing says of a page of an image.
//! It is plain data, which its reader may print or compare.

/// The wear of a page, and how many of its cells are set. The default, of no wear and no cell, fills a place that waits
/// for its report.
#[derive(Clone, Copy, Default, PartialEq, Debug)]
pub struct PageReport {
    /// how often the page was erased, up to 10,000
    pub wear: u32,
    /// how many of its cells are set, up to 1,024
    pub set: usize,
}
