//! The bench part: two pages of 64 cells in memory of its own, one byte a cell, for trials without a device.
//! Its limit of three erases is soon reached.
ghost use Rattle.std.specs.Prelude.{◌≡◌, false, [], replicate};
ghost use Rattle.std.proofs.Common.{lit≤};
ghost use Rattle.cells.specs.Cells.{Fresh};
ghost use Rattle.cells.specs.Bench.{bench_cells, bench_bounded, bench_after};

use crate::array::{CellArray, Erasable};
use crate::fault::DeviceFault;

const PAGES: usize = 2;

const WIDTH: usize = 64;

const LIMIT: u32 = 3;

#[derive(Clone, Copy)]
struct Page {
    set: [bool; WIDTH],
    worn: u32,
}

impl Page {
    // No cell set, after so many erases.
    fn unset(worn: u32) -> Page
        ensures set { result.set ≡ replicate WIDTH false }
        ensures worn { result.worn ≡ worn }
    {
        Page {
            set: [false; WIDTH],
            worn,
        }
    }
}

/// The bench part. The rules give it memory of its own, of a fixed size.
#[derive(Drop)]
pub struct Bench {
    pages: [Page; PAGES],
}

impl Bench {
    /// All cells unset, no page worn.
    pub fn new() -> Bench
        ensures { Fresh (bench_cells result.pages) }
    {
        Bench {
            pages: [Page::unset(0); PAGES],
        }
    }
}

impl CellArray for Bench {
    ghost cells = { λ b. bench_cells b.pages };

    ghost held = { λ _. [] };

    ghost intact = { λ _. Unit {0} };

    ghost steps = { λ b s after. after.pages ≡ bench_after b.pages s };

    ghost bounded = { λ b. bench_bounded b.pages };

    fn pages(&self) -> usize {
        PAGES
    }

    fn width(&self) -> usize {
        WIDTH
    }

    fn look(&self, page: usize, cell: usize) -> Result<bool, DeviceFault> {
        self.check_cell(page, cell)?;
        Ok(self.pages[page].set[cell])
    }

    // `(*self)`, since `self.check_cell` would be that of an array that is lent.
    fn mark(&mut self, page: usize, cell: usize) -> Result<(), DeviceFault> {
        (*self).check_cell(page, cell)?;
        self.pages[page].set[cell] = true;
        Ok(())
    }
}

impl Erasable for Bench {
    ghost lasting = { λ _. lit≤ tt };

    fn wear(&self, page: usize) -> Result<(u32, u32), DeviceFault> {
        self.check_page(page)?;
        Ok((self.pages[page].worn.min(LIMIT), LIMIT))
    }

    fn erase(&mut self, page: usize) -> Result<(), DeviceFault> {
        let worn = (*self).check_erase(page)?;
        self.pages[page] = Page::unset(worn + 1);
        Ok(())
    }
}
