//! An array that is lent: a `&mut` to any array is an array with the same meaning.
//! So a store can stand on an array that its owner has again afterwards.
ghost use Rattle.std.specs.Prelude.{◌∷◌};

use crate::array::{CellArray, Erasable};
use crate::fault::DeviceFault;

// Each method hands its own question on.
impl<A: CellArray> CellArray for &mut A {
    ghost cells = { λ a. A.cells a.now };

    ghost held = { λ a. a.ghost_name ∷ A.held a.now };

    ghost intact = { λ a. A.intact a.now };

    ghost steps = { λ a s after. A.steps a.now s after.now };

    ghost bounded = { λ a. A.bounded a.now };

    fn pages(&self) -> usize {
        (**self).pages()
    }

    fn width(&self) -> usize {
        (**self).width()
    }

    fn look(&self, page: usize, cell: usize) -> Result<bool, DeviceFault> {
        (**self).look(page, cell)
    }

    fn mark(&mut self, page: usize, cell: usize) -> Result<(), DeviceFault> {
        (**self).mark(page, cell)
    }
}

impl<A: Erasable> Erasable for &mut A {
    ghost lasting = { λ a. A.lasting a.now };

    fn wear(&self, page: usize) -> Result<(u32, u32), DeviceFault> {
        (**self).wear(page)
    }

    fn erase(&mut self, page: usize) -> Result<(), DeviceFault> {
        (**self).erase(page)
    }
}
