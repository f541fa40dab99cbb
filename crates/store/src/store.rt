//! The store: records of a coset code in the pages of a cell array, and the ledger of its calls.
//! A store made against its check has no records, and so refuses every call.
ghost use Rattle.std.specs.Prelude.{◌≡◌, ◌≤◌, not, if◌then◌else◌};
ghost use Rattle.group.specs.Group.{step};
ghost use Rattle.calls.specs.declared.call.Call.TheVariants.{Get, Put, Renew};
ghost use Rattle.calls.specs.Calls.{state_of, Obeys};
ghost use Rattle.coset.specs.CellSets.{members_of};
ghost use Rattle.coset.specs.Plans.{Plans};
ghost use Rattle.calls.specs.Ledger.{blank};
ghost use Rattle.calls.specs.Records.{makes, per_page, records};
ghost use Rattle.coset.specs.Codes.{code_of};
ghost use Rattle.store.specs.Keeps.{Keeps, TakesStepsOf, state};

use crate::making::check_making;
use crate::place::{Found, MAX_PER_PAGE};
use crate::{page, record};
use calls::fault::{Locate, StoreFault};
use calls::ledger::Ledger;
use cells::array::{CellArray, Erasable};
use coset::cellset::CellSet;
use coset::code::Code;
use group::interface::Group;

/// A code, an array, and what was counted of the calls since the making.
#[derive(Drop)]
pub struct Store<G, A> {
    pub(crate) code: Code<G>,
    pub(crate) array: A,
    pub(crate) ledger: Ledger,
}

impl<G: Group, A: CellArray> Store<G, A> {
    /// Any code and array make a store; the cells are left as they are.
    pub fn new(code: Code<G>, array: A) -> Store<G, A>
        ensures code { result.code ≡ code }
        ensures array { result.array ≡ array }
        ensures ledger { result.ledger ≡ blank }
    {
        Store {
            code,
            array,
            ledger: Ledger::default(),
        }
    }

    /// The array, with all that the calls left there.
    pub fn into_array(self) -> A
    where
        G: Drop,
        ensures { result ≡ self.array }
    {
        let Store {
            code: _code,
            array,
            ledger: _,
        } = self;
        array
    }

    // The records to a page; none where the making's check refuses.
    pub(crate) fn per_page(&self) -> usize
        ensures { let c = code_of G.Group self.now.code in
            let m = A.cells self.now.array in
            result ≡ (if makes c m then per_page c m else 0) }
    {
        check_making(&self.code, &self.array).map_or(
            0,
            |()| (self.array.width() / self.code.cells).min(MAX_PER_PAGE),
        )
    }

    /// How many records there are; none where the making's check refuses.
    pub fn records(&self) -> usize
        ensures { result ≡ records (code_of G.Group self.now.code) (A.cells self.now.array) }
    {
        self.array.pages() * self.per_page()
    }

    // The plan of a record for a value.
    fn plan_to(&self, found: &Found, value: u32) -> Option<CellSet>
        requires { self.now.code.cells ≤ 63 }
        ensures { let c = code_of G.Group self.now.code in
            Plans c (λ i. not (members_of found.now.held i))
            (step c.group found.now.value value) result }
    {
        let step = self.code.group.step(found.value, value);
        self.code.plan(&found.held.complement(), step)
    }

    /// What was counted since the making.
    pub fn ledger(&self) -> Ledger
        ensures { result ≡ self.now.ledger }
    {
        self.ledger
    }

    /// The value of a record. It alters nothing. Refused by 40.
    pub fn get(&self, record: usize) -> Result<u32, StoreFault>
        ensures obeys { let now = state A.CellArray self.now in
            Obeys (code_of G.Group self.now.code) (Get «record») result now now }
        ensures takes { TakesStepsOf G.Group A.CellArray (Get «record») result self.now self.now }
    {
        Ok(self.find(record)?.value)
    }

    /// Marks the cells of the plan, each once and rising, and no other; it answers how many. The
    /// plan is, of the smallest sets of unset cells that take the record to the value, the one
    /// whose rising list of cells comes first in dictionary order. Refused by 40, 41 or 42, and
    /// then nothing is altered. A record and a value are two numbers here and below; where there is
    /// a list, `Call` holds both.
    pub fn put(&mut self, record: usize, value: u32) -> Result<u32, StoreFault>
        ensures keeps { Keeps A.CellArray self.old self.new }
        ensures obeys { Obeys (code_of G.Group self.old.code) (Put «record» value) result
            (state A.CellArray self.old) (state A.CellArray self.new) }
        ensures takes { TakesStepsOf G.Group A.CellArray (Put «record» value) result
            self.old self.new }
    {
        let found = self.find_for(record, value)?;
        let Some(plan) = self.plan_to(&found, value) else {
            return Err(StoreFault::Full { record });
        };
        let written = record::write(&mut self.array, self.code.cells, found.place, &plan);
        let marked = written.located_at(record)?;
        self.ledger.note_put(found.value != value, marked);
        Ok(marked)
    }
}

impl<G: Group, A: Erasable> Store<G, A> {
    /// Erases the page of a record once, and writes its records again, rising, each by its plan
    /// from empty: this one with a new value, the others with theirs. It answers how many cells it
    /// marked. Refused by 40, 41, 43, 44 or 22, and then no cell is altered.
    pub fn renew(&mut self, record: usize, value: u32) -> Result<u32, StoreFault>
        ensures keeps { Keeps A.CellArray self.old self.new }
        ensures obeys { Obeys (code_of G.Group self.old.code) (Renew «record» value) result
            (state A.CellArray self.old) (state A.CellArray self.new) }
        ensures takes { TakesStepsOf G.Group A.CellArray (Renew «record» value) result
            self.old self.new }
    {
        let found = self.find_for(record, value)?;
        // As a pattern, which tells the proof that there is no plan.
        let None = self.plan_to(&found, value) else {
            return Err(StoreFault::Fits { record });
        };
        let plans = self.plan_page(record, value)?;
        let page = found.place.page;
        self.array.erase(page).located_at(record)?;
        let written = page::write_page(&mut self.array, self.code.cells, page, plans.as_slice());
        let marked = written.located_at(record)?;
        self.ledger.note_renewal(marked);
        Ok(marked)
    }
}
