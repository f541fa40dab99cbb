//! The interfaces: pages of cells that can only be set, and pages that can also be erased.
//! Each call's contract holds for every argument. A refusal alters no cell and no count; what it leaves in memory, each
//! array says by its `steps`.
ghost use Rattle.std.specs.Prelude.{◌≡◌, ◌≤◌, List};
ghost use Rattle.std.specs.Borrow.{GName};
ghost use Rattle.cells.specs.Cells.{Cells, Bounded, is_set};
ghost use Rattle.cells.specs.Device.{ChecksPage, ChecksCell, ChecksErase, Kept, Looks, Marks, Wears, Erases};
ghost use Rattle.cells.specs.Steps.{Step, mark_step, erase_step};

use crate::fault::DeviceFault;

/// Pages of cells that can only be set. A call names a page and a cell by two numbers, a struct of which would be made for
/// each call and taken apart in it.
pub trait CellArray {
    // what the array means
    ghost cells: { Self → Cells };

    // the names of what it borrows, which no call alters
    ghost held: { Self → List GName };

    // what holds of its memory as long as nothing else writes there, and what every call keeps
    ghost intact: { Self → Type 0 };

    // What a step does to it, to the last bit of its memory: one that it serves, and one that it refuses. A part that
    // keeps no trace of a refusal is then what it was; a device may count refusals in a register.
    ghost steps: { Self → Step → Self → Type 0 };

    // that its meaning is within the bounds of every array
    ghost bounded: { (a : Self) → Bounded (cells a) };

    /// How many pages there are.
    fn pages(&self) -> usize
        ensures { result ≡ (cells self.now).pages };

    /// The cells of each page.
    fn width(&self) -> usize
        ensures { result ≡ (cells self.now).width };

    /// That there is such a page, or the fault of every call that names it.
    fn check_page(&self, page: usize) -> Result<(), DeviceFault>
        ensures { ChecksPage (cells self.now) page result }
    {
        if page >= self.pages() {
            return Err(DeviceFault::NoPage { page, cell: None });
        }
        Ok(())
    }

    /// That there is such a cell, or the fault of every call that names it.
    fn check_cell(&self, page: usize, cell: usize) -> Result<(), DeviceFault>
        ensures { ChecksCell (cells self.now) page cell result }
    {
        if page >= self.pages() {
            return Err(DeviceFault::NoPage {
                page,
                cell: Some(cell),
            });
        }
        if cell >= self.width() {
            return Err(DeviceFault::NoCell { page, cell });
        }
        Ok(())
    }

    /// Whether a cell is set. Refused by 20 or 21.
    fn look(&self, page: usize, cell: usize) -> Result<bool, DeviceFault>
        ensures { Looks (cells self.now) page cell result };

    /// Whether there is such a cell, and it is set.
    final fn is_set(&self, page: usize, cell: usize) -> bool
        ensures { result ≡ is_set (cells self.now) page cell }
    {
        self.look(page, cell).unwrap_or(false)
    }

    /// Sets a cell and alters no other; a cell that is set already stays so. Refused by 20 or 21.
    fn mark(&mut self, page: usize, cell: usize) -> Result<(), DeviceFault>
        ensures kept { Kept held intact self.old self.new }
        ensures marks { Marks page cell (cells self.old) (cells self.new) result }
        ensures step { steps self.old (mark_step page cell result) self.new };
}

/// A cell array whose pages can be erased.
pub trait Erasable: CellArray {
    /// A page's wear, and the limit: a pair, since whoever asks takes it apart at once. Refused by 20.
    fn wear(&self, page: usize) -> Result<(u32, u32), DeviceFault>
        ensures { Wears (Self.cells self.now) page result };

    /// That a page can be erased once more, with its wear so far, or the fault of an erase.
    fn check_erase(&self, page: usize) -> Result<u32, DeviceFault>
        ensures { ChecksErase (Self.cells self.now) page result }
    {
        let (worn, limit) = self.wear(page)?;
        if worn >= limit {
            return Err(DeviceFault::Worn { page });
        }
        Ok(worn)
    }

    /// Unsets every cell of a page, whose wear is one more, and alters no other page. Refused by 20 or 22.
    fn erase(&mut self, page: usize) -> Result<(), DeviceFault>
        ensures kept { Kept Self.held Self.intact self.old self.new }
        ensures erases { Erases page (Self.cells self.old) (Self.cells self.new) result }
        ensures step { Self.steps self.old (erase_step page result) self.new };

    // that its limit is at least 1
    ghost lasting: { (a : Self) → 1 ≤ (Self.cells a).limit };
}
