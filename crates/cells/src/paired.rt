//! The paired part: each of its cells stands on two cells of any array below, and is set when either of them is.
//! It can be erased where the array below can.
ghost use Rattle.std.specs.Prelude.{◌≡◌, ◌*◌};
ghost use Rattle.cells.specs.Device.{Kept, Marks, Erases};
ghost use Rattle.cells.specs.Steps.{mark_step, erase_step, steps_below};
ghost use Rattle.cells.specs.Chain.{Takes};
ghost use Rattle.cells.specs.Paired.{paired_cells, paired_bounded, MarksBoth};

use crate::array::{CellArray, Erasable};
use crate::fault::DeviceFault;

/// An array of half the width over any array; an odd cell at the end of a page below belongs to no cell here.
#[derive(Drop)]
pub struct Paired<A> {
    array: A,
}

impl<A> Paired<A> {
    /// Over this array, with its cells as they are.
    pub fn new(array: A) -> Paired<A>
        ensures { result.array ≡ array }
    {
        Paired { array }
    }

    /// The array below.
    pub fn into_inner(self) -> A
        ensures { result ≡ self.array }
    {
        let Paired { array } = self;
        array
    }
}

impl<A: CellArray> CellArray for Paired<A> {
    ghost cells = { λ p. paired_cells (A.cells p.array) };

    ghost held = { λ p. A.held p.array };

    ghost intact = { λ p. A.intact p.array };

    // the steps that the array below takes
    ghost steps = { λ p s after. Takes A.CellArray (steps_below s) p.array after.array };

    ghost bounded = { λ p. paired_bounded (A.cells p.array) (A.bounded p.array) };

    fn pages(&self) -> usize {
        self.array.pages()
    }

    fn width(&self) -> usize {
        self.array.width() / 2
    }

    fn look(&self, page: usize, cell: usize) -> Result<bool, DeviceFault> {
        self.check_cell(page, cell)?;
        let first = self.array.look(page, 2 * cell)?;
        let second = self.array.look(page, 2 * cell + 1)?;
        Ok(first | second)
    }

    fn mark(&mut self, page: usize, cell: usize) -> Result<(), DeviceFault>
        ensures kept { Kept A.held A.intact self.old.array self.new.array }
        ensures marks { let before = paired_cells (A.cells self.old.array) in
            Marks page cell before (paired_cells (A.cells self.new.array)) result }
        ensures step { Takes A.CellArray (steps_below (mark_step page cell result))
            self.old.array self.new.array }
        ensures both { MarksBoth page cell
            (A.cells self.old.array) (A.cells self.new.array) result }
    {
        (*self).check_cell(page, cell)?;
        self.array.mark(page, 2 * cell)?;
        self.array.mark(page, 2 * cell + 1)?;
        Ok(())
    }
}

impl<A: Erasable> Erasable for Paired<A> {
    ghost lasting = { λ p. A.lasting p.array };

    fn wear(&self, page: usize) -> Result<(u32, u32), DeviceFault> {
        self.array.wear(page)
    }

    fn erase(&mut self, page: usize) -> Result<(), DeviceFault>
        ensures kept { Kept A.held A.intact self.old.array self.new.array }
        ensures erases { let before = paired_cells (A.cells self.old.array) in
            Erases page before (paired_cells (A.cells self.new.array)) result }
        ensures step { Takes A.CellArray (steps_below (erase_step page result))
            self.old.array self.new.array }
        ensures below { Erases page (A.cells self.old.array) (A.cells self.new.array) result }
    {
        self.array.erase(page)
    }
}
