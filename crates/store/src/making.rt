//! The check of a making: whether a store can be made of a code and an array.
//! The first row that holds is answered, by its own fault.
ghost use Rattle.std.specs.Prelude.{◌≡◌};
ghost use Rattle.coset.specs.Codes.{code_of};
ghost use Rattle.store.specs.Making.{making_number, Makes, MakesAt};

use cells::array::CellArray;
use coset::cellset::MAX_CELLS;
use coset::code::Code;
use group::interface::Group;

/// Why a making is refused.
#[derive(Clone, Copy, PartialEq, Debug)]
pub enum MakingFault {
    /// The group cannot be used.
    Unusable,
    /// No cells to a record, or more than 63.
    Cells,
    /// The array's pages are narrower than a record.
    Narrow,
}

impl MakingFault {
    /// The number of the table of refusals, by cases, as that table has it.
    pub fn number(self) -> u32
        ensures { result ≡ making_number self }
    {
        match self {
            MakingFault::Unusable => 30,
            MakingFault::Cells => 31,
            MakingFault::Narrow => 32,
        }
    }
}

/// Whether a store can be made of these, or why not: 30, 31 or 32, in this order.
pub fn check_making<G: Group, A: CellArray>(code: &Code<G>, array: &A) -> Result<(), MakingFault>
    ensures { Makes (code_of G.Group code.now) (A.cells array.now) result }
{
    check_making_at(code, array.width())
}

/// The same for any array with so many cells to a page, before there is such an array.
pub fn check_making_at<G: Group>(code: &Code<G>, width: usize) -> Result<(), MakingFault>
    ensures { MakesAt (code_of G.Group code.now) width result }
{
    if !code.group.is_usable() {
        return Err(MakingFault::Unusable);
    }
    if code.cells == 0 || code.cells > MAX_CELLS {
        return Err(MakingFault::Cells);
    }
    if width < code.cells {
        return Err(MakingFault::Narrow);
    }
    Ok(())
}
