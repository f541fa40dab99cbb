//! Coset codes: a group, and how many cells a record has. The labels of the cells run through the
//! nonzero elements, again and again, and what the labels of its set cells sum to is the value of a
//! record.
ghost use Rattle.std.specs.Prelude.{◌≡◌};
ghost use Rattle.coset.specs.CellSets.{members_of};
ghost use Rattle.coset.specs.Code.{sum_of};
ghost use Rattle.coset.specs.Codes.{code_of};
ghost use Rattle.coset.specs.Code.{label_of};

use crate::cellset::CellSet;
use group::interface::Group;

/// A group, and how many cells a record has. Any group and any number may stand here; where no
/// store can be made of them, `check_making` of the store refuses them.
#[derive(Clone, Copy, Drop)]
pub struct Code<G> {
    /// its elements are the values, and those other than 0 the labels
    pub group: G,
    /// the number of cells to a record
    pub cells: usize,
}

impl<G> Code<G> {
    /// The code of this group and this number of cells to a record.
    pub fn new(group: G, cells: usize) -> Code<G>
        ensures group { result.group ≡ group }
        ensures cells { result.cells ≡ cells }
    {
        Code { group, cells }
    }
}

impl<G: Group> Code<G> {
    // The label of a cell. An order has 32 bits, and so no `From` into an index; that the casts lose nothing is proved.
    pub(crate) fn label(&self, cell: usize) -> u32
        ensures { result ≡ label_of (G.Group.meaning self.now.group) cell }
    {
        let nonzero = self.group.order() as usize - 1;
        // A record seldom has more cells than there are nonzero elements, and a division takes long.
        let turn = if cell < nonzero { cell } else { cell % nonzero };
        1 + turn as u32
    }

    /// What the labels of the cells of a set sum to, of those that a record has; 0 where it has
    /// none of them.
    // A loop from each cell of the set to the next: a chain over all cells branches at each, and
    // nothing can foresee how.
    pub fn label_sum(&self, set: &CellSet) -> u32
        ensures { result ≡ sum_of (code_of G.Group self.now) (members_of set.now) }
    {
        let mut sum = 0;
        let mut cell = set.first_in(0, self.cells);
        while cell < self.cells {
            sum = self.group.sum(sum, self.label(cell));
            cell = set.first_in(cell + 1, self.cells);
        }
        sum
    }
}
