//! Where a record lies, what was found there, and the plans of a whole page.
//! The cells of a record are n cells in a row.
use arrayvec::ArrayVec;
use coset::cellset::CellSet;

// the most records to a page
pub(crate) const MAX_PER_PAGE: usize = 64;

// A page, and the first cell of a record there.
#[derive(Clone, Copy)]
pub(crate) struct Place {
    pub(crate) page: usize,
    pub(crate) first: usize,
}

// A record that there is: where it lies, which of its cells are set, and the value that it holds.
#[derive(Clone, Copy)]
pub(crate) struct Found {
    pub(crate) place: Place,
    pub(crate) held: CellSet,
    pub(crate) value: u32,
}

// The plan of each record of a page. It never allocates, so that a renewal never fails for want of
// memory.
pub(crate) type PagePlans = ArrayVec<CellSet, MAX_PER_PAGE>;
