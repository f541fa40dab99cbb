//! Whole pages: planning every record of a page from empty, and writing the plans into it.
//! A renewal does both, with an erase between them.
ghost use Rattle.std.specs.Prelude.{length, ◌≡◌, ℕ, ◌*◌, ◌<◌, ◌≤◌, false, IsOkAnd, MatchResult};
ghost use Rattle.coset.specs.Code.{Unreachable, every};
ghost use Rattle.cells.specs.Device.{Kept};
ghost use Rattle.cells.specs.Chain.{Takes};
ghost use Rattle.calls.specs.declared.fault.StoreFault.TheVariants.{Unreached};
ghost use Rattle.calls.specs.Records.{records};
ghost use Rattle.calls.specs.Steps.{marks_of};
ghost use Rattle.store.specs.Parts.{PlansForRenewal, PageWritten};
ghost use Rattle.coset.specs.Codes.{code_of};

use crate::place::{PagePlans, Place};
use crate::record;
use crate::store::Store;
use arrayvec::ArrayVec;
use calls::fault::{Locate, StoreFault};
use cells::array::CellArray;
use cells::fault::DeviceFault;
use coset::cellset::CellSet;
use group::interface::Group;

impl<G: Group, A: CellArray> Store<G, A> {
    // The plans of the records of a record's page from empty: its own for a new value, every other for the value that
    // it holds. Refused where the new value is out of reach.
    pub(crate) fn plan_page(&self, record: usize, value: u32) -> Result<PagePlans, StoreFault>
        requires { «record» < records (code_of G.Group self.now.code) (A.cells self.now.array) }
        ensures { let c = code_of G.Group self.now.code in
            let m = A.cells self.now.array in
            MatchResult result (λ plans. PlansForRenewal c m «record» value plans.items)
            (λ fault. Unreachable c every value × (fault ≡ Unreached «record»)) }
    {
        let records = self.per_page();
        let page = record / records;
        let all = CellSet::empty().complement();
        let mut plans = ArrayVec::new();
        // Over numbers, since each is the place of a record.
        for r in 0..records {
            let target = if r == record % records {
                value
            } else {
                let first = r * self.code.cells;
                self.value_at(Place { page, first }).located_at(record)?
            };
            let Some(plan) = self.code.plan(&all, target) else {
                return Err(StoreFault::Unreached { record });
            };
            plans.push(plan);
        }
        Ok(plans)
    }
}

// Writes the plans into a page with no cell set, and answers how many cells that sets. A function of the array alone,
// so that nothing has to be said of the rest of the store.
pub(crate) fn write_page<A: CellArray>(
    array: &mut A,
    n: usize,
    page: usize,
    plans: &[CellSet],
) -> Result<u32, DeviceFault>
    requires few { n ≤ 63 }
    requires shared { length plans.now ≤ 64 }
    requires fits { length plans.now * n ≤ (A.cells array.old).width }
    requires page { page < (A.cells array.old).pages }
    requires unset { let m = A.cells array.old in
        (j : ℕ) → j < m.width → m.set page j ≡ false }
    ensures kept { Kept A.held A.intact array.old array.new }
    ensures takes { let set = (A.cells array.new).set page in
        Takes A.CellArray (marks_of page 0 set (length plans.now * n)) array.old array.new }
    ensures written { let b = length plans.now in
        IsOkAnd result (PageWritten n page b plans.now (A.cells array.old) (A.cells array.new)) }
{
    let mut marked = 0;
    for (r, plan) in plans.iter().enumerate() {
        let at = Place { page, first: r * n };
        marked += record::write(array, n, at, plan)?;
    }
    Ok(marked)
}
