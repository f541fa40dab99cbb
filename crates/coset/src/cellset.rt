//! Sets of the cells of one record, by a bit for each cell.
//! A record has at most 63 cells, so no cell from 63 on is ever in a set.
ghost use Rattle.std.specs.Prelude.{◌<◌};

/// The most cells that a record has.
pub const MAX_CELLS: usize = 63;

// a bit for each of these cells
const ALL: u64 = u64::MAX >> 1;

/// A set of cells, each below 63. It has memory of a fixed size, since a put may not fail for want
/// of it.
#[derive(Clone, Copy, PartialEq, Debug)]
pub struct CellSet {
    bits: u64,
    ghost few: { bits < 9223372036854775808 },
}

// Empty. An `ArrayVec` asks for a default.
impl Default for CellSet {
    ghost use Rattle.std.specs.Prelude.{◌≡◌, ℕ, false};
    ghost use Rattle.coset.specs.CellSets.{members_of};

    ghost is_default = { λ s. (i : ℕ) → members_of s i ≡ false };

    fn default() -> Self {
        CellSet::empty()
    }
}

impl CellSet {
    ghost use Rattle.std.specs.Prelude.{◌≡◌, ℕ, ◌≤◌, false, not, ◌||◌, ◌==◌, if◌then◌else◌};
    ghost use Rattle.std.specs.Slice.Scan.{IsFirstPlace};
    ghost use Rattle.coset.specs.CellSets.{members_of};

    /// The set with no cell.
    pub const fn empty() -> Self
        ensures { (i : ℕ) → members_of result i ≡ false }
    {
        CellSet { bits: 0 }
    }

    /// Whether a cell is in the set; any number may be asked for.
    pub fn contains(&self, cell: usize) -> bool
        ensures { result ≡ members_of self.now cell }
    {
        cell < MAX_CELLS && (self.bits >> cell) & 1 == 1
    }

    // The first cell of the set from `from` on, or `to` where it has none before that.
    pub(crate) fn first_in(&self, from: usize, to: usize) -> usize
        requires { from ≤ to }
        ensures { IsFirstPlace (members_of self.now) from to result }
    {
        if from >= MAX_CELLS {
            return to;
        }
        let first = from + (self.bits >> from).trailing_zeros() as usize;
        if first < MAX_CELLS { first.min(to) } else { to }
    }

    /// Puts a cell into the set. A cell from 63 on is not taken, and the set is then as it was.
    pub fn insert(&mut self, cell: usize)
        ensures taken { cell < 63 → (i : ℕ) → members_of self.new i ≡ (members_of self.old i || i == cell) }
        ensures refused { 63 ≤ cell → self.new ≡ self.old }
    {
        self.assign(cell, true);
    }

    /// Puts a cell into the set, or takes it out. A cell from 63 on is not taken, and the set is
    /// then as it was.
    pub fn assign(&mut self, cell: usize, member: bool)
        ensures taken { cell < 63 → (i : ℕ) → members_of self.new i ≡ (if i == cell then member else members_of self.old i) }
        ensures refused { 63 ≤ cell → self.new ≡ self.old }
    {
        if cell < MAX_CELLS {
            let bit = 1 << cell;
            self.bits = if member {
                self.bits | bit
            } else {
                self.bits & !bit
            };
        }
    }

    /// The cells below 63 that are not in the set.
    pub fn complement(&self) -> Self
        ensures { (i : ℕ) → i < 63 → members_of result i ≡ not (members_of self.now i) }
    {
        CellSet {
            bits: self.bits ^ ALL,
        }
    }
}
