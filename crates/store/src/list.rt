//! Lists of calls on a store: each call is served in order and its answer put beside it, and the whole promise holds of
//! the list. The caller lends the places of the answers, so that no list is too long.
ghost use Rattle.calls.specs.declared.call.Call.{Call as CallMeaning};
ghost use Rattle.calls.specs.Calls.{Obeys};
ghost use Rattle.calls.specs.Promise.{WithinCeiling};
ghost use Rattle.calls.specs.Accesses.{as_call};
ghost use Rattle.calls.specs.Lists.{ListServed};
ghost use Rattle.coset.specs.Codes.{code_of};
ghost use Rattle.store.specs.Keeps.{Keeps, TakesStepsOf, state};

use crate::store::Store;
use calls::call::{Access, Call, Entry};
use calls::fault::StoreFault;
use calls::ledger::Ledger;
use cells::array::{CellArray, Erasable};
use group::interface::Group;

/// What a store over arrays of the type A can be asked: any call where they can be erased, and else an access.
pub trait Request<A: CellArray> {
    // the call that it is
    ghost call: { Self → CallMeaning };

    /// Makes the call on a store, with the answer of `get`, `put` or `renew`.
    fn serve<G: Group>(&self, store: &mut Store<G, A>) -> Result<u32, StoreFault>
        ensures keeps { Keeps A.CellArray store.old store.new }
        ensures obeys { Obeys (code_of G.Group store.old.code) (call self.now) result
            (state A.CellArray store.old) (state A.CellArray store.new) }
        ensures takes { TakesStepsOf G.Group A.CellArray (call self.now) result
            store.old store.new };
}

// By cases, since a call is data.
impl<A: Erasable> Request<A> for Call {
    ghost call = { λ c. c };

    fn serve<G: Group>(&self, store: &mut Store<G, A>) -> Result<u32, StoreFault> {
        match *self {
            Call::Get { record } => store.get(record),
            Call::Put { record, value } => store.put(record, value),
            Call::Renew { record, value } => store.renew(record, value),
        }
    }
}

// As `Call`, but with no renewal: what the two ask of an array differs, and each goes by its own cases.
impl<A: CellArray> Request<A> for Access {
    ghost call = { as_call };

    fn serve<G: Group>(&self, store: &mut Store<G, A>) -> Result<u32, StoreFault> {
        match *self {
            Access::Get { record } => store.get(record),
            Access::Put { record, value } => store.put(record, value),
        }
    }
}

impl<G: Group, A: CellArray> Store<G, A> {
    /// Serves the calls of a list in order, and puts the answer of each beside it, over whatever stood there. Every list
    /// is served to its end, however long, and every call of it answered: one that is refused alters no cell, no wear and
    /// no count, and the next one is served all the same.
    pub fn serve_all<C: Request<A>>(&mut self, entries: &mut [Entry<C>])
        ensures keeps { Keeps A.CellArray self.old self.new }
        ensures served { ListServed A.CellArray (code_of G.Group self.old.code) C.call
            self.old.array self.old.ledger entries.old entries.new self.new.array self.new.ledger }
    {
        // The counts have 32 bits, which the proof learns where they are read.
        let _largest = largest(&self.ledger);
        for entry in entries.iter_mut() {
            entry.answer = Some(entry.call.serve(self));
        }
    }
}

// The largest count; as 32-bit numbers, all are within the ceiling.
fn largest(ledger: &Ledger) -> u32
    ensures { WithinCeiling ledger.now }
{
    ledger.changes.max(ledger.renewals).max(ledger.marked)
}
