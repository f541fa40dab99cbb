//! The whole promise on one call: a store is made of a code and an array, and the calls of a list are served on it.
//! The array is lent, so that its owner has it again with all that the calls left there. No call here needs memory.
ghost use Rattle.std.specs.Prelude.{◌≡◌};
ghost use Rattle.cells.specs.Device.{Kept};
ghost use Rattle.cells.specs.Chain.{Takes};
ghost use Rattle.calls.specs.Calls.{state_of, Obeys};
ghost use Rattle.calls.specs.declared.ledger.Ledger.{Ledger as Counts};
ghost use Rattle.calls.specs.Ledger.{blank};
ghost use Rattle.calls.specs.Steps.{steps_of};
ghost use Rattle.calls.specs.Lists.{ListServed};
ghost use Rattle.calls.specs.Accesses.{as_call};
ghost use Rattle.coset.specs.Codes.{code_of};

use crate::list::Request;
use crate::store::Store;
use calls::call::{Access, Call, Entry};
use calls::fault::StoreFault;
use calls::ledger::Ledger;
use cells::array::{CellArray, Erasable};
use coset::code::Code;
use group::interface::Group;

/// Makes a store over an array that can be erased, and serves the gets, puts and renewals of a list: the answer of each
/// is put beside it. It gives what the store counted. Any group, any array with whatever cells set, any number of cells
/// to a record and any list are served; where the check of the making refuses, each call is refused by 40.
pub fn serve_calls<G: Group + Drop, A: Erasable>(
    code: Code<G>,
    array: &mut A,
    entries: &mut [Entry<Call>],
) -> Ledger
    ensures kept { Kept A.held A.intact array.old array.new }
    ensures served { ListServed A.CellArray (code_of G.Group code) (λ call. call)
        array.old blank entries.old entries.new array.new result }
{
    let (array, ledger) = serve_over(code, array, entries);
    let _ = array;
    ledger
}

/// Makes a store over any cell array, and serves the gets and puts of a list, as `serve_calls` does.
// It is not one with `serve_calls`: that a list is served over every borrow of an array is no bound that can be stated
// yet, and where the borrow has a lifetime of its own, the contract cannot speak of the array afterwards.
pub fn serve_accesses<G: Group + Drop, A: CellArray>(
    code: Code<G>,
    array: &mut A,
    accesses: &mut [Entry<Access>],
) -> Ledger
    ensures kept { Kept A.held A.intact array.old array.new }
    ensures served { ListServed A.CellArray (code_of G.Group code) as_call
        array.old blank accesses.old accesses.new array.new result }
{
    let (array, ledger) = serve_over(code, array, accesses);
    let _ = array;
    ledger
}

/// Makes a store over an array that can be erased, and makes one call on it, with the answer of `get`, `put` or `renew`.
pub fn run_call<G: Group + Drop, A: Erasable>(
    code: Code<G>,
    array: &mut A,
    call: Call,
) -> Result<u32, StoreFault>
    ensures kept { Kept A.held A.intact array.old array.new }
    ensures obeys { (counts : Counts) × Obeys (code_of G.Group code) call result
        (state_of (A.cells array.old) blank) (state_of (A.cells array.new) counts) }
    ensures takes { let c = code_of G.Group code in
        let steps = steps_of c call result (A.cells array.old) (A.cells array.new) in
        Takes A.CellArray steps array.old array.new }
{
    let (array, answer) = call_over(code, array, call);
    let _ = array;
    answer
}

// Makes a store over an array, serves the calls of a list on it, and gives the array back.
fn serve_over<G: Group + Drop, A: CellArray, C: Request<A>>(
    code: Code<G>,
    array: A,
    entries: &mut [Entry<C>],
) -> (A, Ledger)
    ensures kept { Kept A.held A.intact array result.0 }
    ensures served { ListServed A.CellArray (code_of G.Group code) C.call
        array blank entries.old entries.new result.0 result.1 }
{
    let mut store = Store::new(code, array);
    store.serve_all(entries);
    let ledger = store.ledger();
    (store.into_array(), ledger)
}

// Makes a store over an array, makes one call on it, and gives the array back.
fn call_over<G: Group + Drop, A: Erasable>(
    code: Code<G>,
    array: A,
    call: Call,
) -> (A, Result<u32, StoreFault>)
    ensures kept { Kept A.held A.intact array result.0 }
    ensures obeys { (counts : Counts) × Obeys (code_of G.Group code) call result.1
        (state_of (A.cells array) blank) (state_of (A.cells result.0) counts) }
    ensures takes { let c = code_of G.Group code in
        let steps = steps_of c call result.1 (A.cells array) (A.cells result.0) in
        Takes A.CellArray steps array result.0 }
{
    let mut store = Store::new(code, array);
    let answer = call.serve(&mut store);
    (store.into_array(), answer)
}
