//! What the steps of an array tell, each law on the contract of a function with no code.
ghost use Rattle.cells.specs.Chain.{StepsTell, StepsBelow};

use crate::array::CellArray;
use crate::paired::Paired;

/// Whatever steps an array takes, each of its cells is known afterwards, and how often each page was erased.
pub fn steps_tell<A: CellArray>()
    ensures { StepsTell A.CellArray }
{}

/// Over any array, whatever steps a paired part takes, the array below takes the marks of both halves and the erases, and
/// no others. So each cell below is known by `steps_tell`: also where half of a pair was set before, and where the width
/// below is odd.
pub fn steps_below<A: CellArray>()
    ensures { StepsBelow A.CellArray ⟦<Paired<A> as CellArray>⟧ }
{}
