//! The cells of one record: finding and reading them, and setting some of them. Each works on any cell array, and hands a
//! refusal of the array on; that there is none for cells that are inside the array, each contract says.
ghost use Rattle.std.specs.Prelude.{◌≡◌, ℕ, ◌<◌, IsOkAnd, Ok};
ghost use Rattle.cells.specs.Device.{Kept};
ghost use Rattle.cells.specs.Chain.{Takes};
ghost use Rattle.cells.specs.Sets.{size_below};
ghost use Rattle.calls.specs.Steps.{marks_of};
ghost use Rattle.coset.specs.CellSets.{members_of};
ghost use Rattle.coset.specs.Code.{sum_of};
ghost use Rattle.store.specs.Parts.{Inside, LiesAt, Finds, FindsFor, set_from, SetsCells};
ghost use Rattle.coset.specs.Codes.{code_of};

use crate::place::{Found, Place};
use crate::store::Store;
use calls::fault::{Locate, StoreFault};
use cells::array::CellArray;
use cells::fault::DeviceFault;
use coset::cellset::CellSet;
use group::interface::Group;

impl<G: Group, A: CellArray> Store<G, A> {
    // The record of a number, with its set cells and its value.
    pub(crate) fn find(&self, record: usize) -> Result<Found, StoreFault>
        ensures { Finds (code_of G.Group self.now.code) (A.cells self.now.array) «record» result }
    {
        let place = self.place(record)?;
        let held = self.read(place).located_at(record)?;
        let value = self.code.label_sum(&held);
        Ok(Found { place, held, value })
    }

    // The record of a number that is to hold a value: it and the value have to be there.
    pub(crate) fn find_for(&self, record: usize, value: u32) -> Result<Found, StoreFault>
        ensures { FindsFor (code_of G.Group self.now.code) (A.cells self.now.array)
            «record» value result }
    {
        let found = self.find(record)?;
        if !self.code.group.has(value) {
            return Err(StoreFault::NoValue { record });
        }
        Ok(found)
    }

    pub(crate) fn place(&self, record: usize) -> Result<Place, StoreFault>
        ensures { LiesAt (code_of G.Group self.now.code) (A.cells self.now.array) «record» result }
    {
        if record >= self.records() {
            return Err(StoreFault::NoRecord { record });
        }
        let per_page = self.per_page();
        Ok(Place {
            page: record / per_page,
            first: record % per_page * self.code.cells,
        })
    }

    // The set cells of a record. A loop, since a chain would carry the set through a closure. That the cells are inside
    // the array is a precondition here, in `value_at` and in `write`, and no fact of a struct: it is of an array and
    // a place together, and `write` alters the array.
    fn read(&self, at: Place) -> Result<CellSet, DeviceFault>
        requires { Inside (A.cells self.now.array) self.now.code.cells at }
        ensures { let there = set_from (A.cells self.now.array) at in
            IsOkAnd result (λ set. (i : ℕ) → i < self.now.code.cells → members_of set i ≡ there i) }
    {
        let mut set = CellSet::empty();
        for cell in 0..self.code.cells {
            set.assign(cell, self.array.look(at.page, at.first + cell)?);
        }
        Ok(set)
    }

    // The value of a record.
    pub(crate) fn value_at(&self, at: Place) -> Result<u32, DeviceFault>
        requires { Inside (A.cells self.now.array) self.now.code.cells at }
        ensures { let there = set_from (A.cells self.now.array) at in
            result ≡ Ok (sum_of (code_of G.Group self.now.code) there) }
    {
        Ok(self.code.label_sum(&self.read(at)?))
    }
}

// Sets the cells of a set, rising, and answers how many they are. A loop that counts, since a chain would carry the array
// into its closure. A function of the array alone, so that nothing has to be said of the rest of the store.
pub(crate) fn write<A: CellArray>(
    array: &mut A,
    n: usize,
    at: Place,
    set: &CellSet,
) -> Result<u32, DeviceFault>
    requires { Inside (A.cells array.old) n at }
    ensures kept { Kept A.held A.intact array.old array.new }
    ensures takes { Takes A.CellArray (marks_of at.page at.first (members_of set.now) n)
        array.old array.new }
    ensures sets { SetsCells n at (members_of set.now) (A.cells array.old) (A.cells array.new) }
    ensures count { result ≡ Ok (size_below (members_of set.now) n) }
{
    let mut count = 0;
    for cell in 0..n {
        if set.contains(cell) {
            array.mark(at.page, at.first + cell)?;
            count += 1;
        }
    }
    Ok(count)
}
