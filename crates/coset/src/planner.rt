//! The planner: the smallest set of free cells of a record whose labels sum to a given element, and
//! of several the first. A table of the fewest cells, by cell and element, is filled from the last
//! cell to the first, and then walked back.
ghost use Rattle.std.specs.Prelude.{◌≡◌, ℕ, ◌+◌, ◌-◌, ◌<◌, ◌≤◌, ◌==◌, min, true, replicate, slice_index};
ghost use Rattle.group.specs.Group.{In, Usable, step};
ghost use Rattle.coset.specs.CellSets.{members_of};
ghost use Rattle.coset.specs.Code.{Plan};
ghost use Rattle.coset.specs.Plans.{Plans, Filled, PutsRow, fewest_at};
ghost use Rattle.coset.specs.Code.{label_of};

use crate::cellset::{CellSet, MAX_CELLS};
use crate::code::Code;
use group::interface::Group;

// The entry of an element that no cells sum to. The rules have a table of bytes, so it is no `Option`.
const UNREACHED: u8 = 255;

// a row for each of at most 63 cells and one past the last, and an entry for each of at most 64 elements
const ROWS: usize = 64;

const ELEMENTS: usize = 64;

const ENTRIES: usize = ROWS * ELEMENTS;

// A row of the table, with an entry for each element: the fewest of the free cells from some cell on that sum to it.
type Row = [u8; ELEMENTS];

// The rows stand one after the other; row i is that of the cells from cell i on. The rules give the table this size,
// 4,096 entries.
#[derive(Clone, Copy)]
struct Table {
    entries: [u8; ENTRIES],
}

impl Table {
    fn unreached() -> Self
        ensures { result.entries ≡ replicate ENTRIES 255 }
    {
        Table {
            entries: [UNREACHED; ENTRIES],
        }
    }

    // Elements are 32-bit numbers, which have no `From` into an index; that the cast loses nothing is proved.
    fn get(&self, cell: usize, s: u32) -> u8
        requires cell_bound { cell < 64 }
        requires s_bound { s < 64 }
        ensures { result ≡ fewest_at self.now cell s }
    {
        self.entries[ELEMENTS * cell + s as usize]
    }

    // A part of the table and no copy, since a row is only read. The rows hold every entry, so nothing is left over.
    fn row(&self, cell: usize) -> &Row
        requires { cell < 64 }
        ensures { (s : ℕ) → s < 64 → slice_index result.now s ≡ fewest_at self.now cell s }
    {
        let (rows, _) = self.entries.as_chunks::<ELEMENTS>();
        &rows[cell]
    }

    fn put_row(&mut self, cell: usize, row: &Row)
        requires { cell < 64 }
        ensures { PutsRow self.old self.new cell row.now }
    {
        let first = ELEMENTS * cell;
        self.entries[first..first + ELEMENTS].copy_from_slice(row);
    }
}

impl<G: Group> Code<G> {
    ghost use Rattle.coset.specs.Codes.{code_of};

    /// The plan for a step: the smallest set of free cells of a record whose labels sum to it, and
    /// of several as small the first in dictionary order of their rising lists of cells; or none
    /// where no free cells sum to it. Any step may be asked for; the step 0 takes no cell, and one
    /// that is no element of the group has no plan.
    pub fn plan(&self, free: &CellSet, step: u32) -> Option<CellSet>
        ensures { Plans (code_of G.Group self.now) (members_of free.now) step result }
    {
        if step == 0 {
            return Some(CellSet::empty());
        }
        if !self.group.has(step) {
            return None;
        }
        let search = Search {
            code: self,
            cells: self.cells.min(MAX_CELLS),
            free,
        };
        let mut table = Table::unreached();
        search.fill(&mut table);
        if table.get(0, step) == UNREACHED {
            return None;
        }
        Some(search.walk(&table, step))
    }
}

// A code of a usable group, how many of its cells a plan can have, and which of them are free.
#[derive(Drop)]
struct Search<'a, G: Group> {
    code: &'a Code<G>,
    cells: usize,
    free: &'a CellSet,
    ghost usable: { Usable (G.Group.meaning code.now.group) },
    ghost few: { cells ≤ 63 },
}

impl<G: Group> Search<'_, G> {
    ghost use Rattle.coset.specs.Searches.{search_code};

    // Past the last cell 0 alone is reached, by no cell. A loop, since each row is filled from the one before it.
    fn fill(&self, table: &mut Table)
        ensures { Filled (search_code self.now) (members_of self.now.free.now) table.new 0 }
    {
        let mut none = [UNREACHED; ELEMENTS];
        none[0] = 0;
        table.put_row(self.cells, &none);
        for cell in (0..self.cells).rev() {
            let next = table.row(cell + 1);
            let row = if self.free.contains(cell) {
                best(next, &self.moved(cell, next))
            } else {
                *next
            };
            table.put_row(cell, &row);
        }
    }

    // The next cell's row, with each entry at the element that a cell's label takes it to. A loop over the elements,
    // which are numbers, and no values in memory to go over.
    fn moved(&self, cell: usize, next: &Row) -> Row
        ensures { (s : ℕ) → In (G.Group.meaning self.now.code.now.group) s → slice_index result s ≡ slice_index next.now (step (G.Group.meaning self.now.code.now.group) (label_of (G.Group.meaning self.now.code.now.group) cell) s) }
    {
        let opposite = self.code.group.opposite(self.code.label(cell));
        let mut moved = *next;
        for s in 0..self.code.group.order() {
            let rest = self.code.group.sum(s, opposite);
            moved[s as usize] = next[rest as usize];
        }
        moved
    }

    // From the first cell on, a cell is taken wherever the fewest cells from it on can do with it,
    // until nothing is left to reach. So where another smallest set first differs, it is the other
    // that lacks the cell. A loop, since each turn goes on from the set and the step that the one
    // before left; a fold would carry the two as a pair.
    fn walk(&self, table: &Table, step: u32) -> CellSet
        requires filled { Filled (search_code self.now) (members_of self.now.free.now) table.now 0 }
        requires element { In (G.Group.meaning self.now.code.now.group) step }
        requires reached { fewest_at table.now 0 step < 255 }
        ensures plan { Plan (search_code self.now) (members_of self.now.free.now) step (members_of result) }
        ensures within { (i : ℕ) → members_of result i ≡ true → i < self.now.cells }
    {
        let mut chosen = CellSet::empty();
        let mut rest = step;
        for cell in 0..self.cells {
            if rest == 0 {
                break;
            }
            if self.free.contains(cell) {
                let after = self.code.group.step(self.code.label(cell), rest);
                let taken = table.get(cell + 1, after).saturating_add(1);
                if taken == table.get(cell, rest) {
                    chosen.insert(cell);
                    rest = after;
                }
            }
        }
        chosen
    }
}

// The row of a free cell: the better of leaving it out and of taking it, which is one cell more. It is a loop of its
// own, over all entries, of which the compiler makes a few wide instructions.
fn best(left_out: &Row, taken: &Row) -> Row
    ensures { (s : ℕ) → s < 64 → slice_index result s ≡ min (slice_index left_out.now s) (min (slice_index taken.now s + 1) 255) }
{
    let mut best = *left_out;
    for s in 0..ELEMENTS {
        best[s] = left_out[s].min(taken[s].saturating_add(1));
    }
    best
}
