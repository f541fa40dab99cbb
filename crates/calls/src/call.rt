//! The calls on a store, those among them that every cell array can serve, and the entries of a list of them.
//! A list of calls is what a store promises about.
use crate::fault::StoreFault;

/// A call on a store, with the number of its record.
#[derive(Clone, Copy)]
pub enum Call {
    Get { record: usize },
    Put { record: usize, value: u32 },
    Renew { record: usize, value: u32 },
}

/// A call that needs no erase, so that it can be made over any cell array. No row of the table of refusals says how a
/// renewal is refused over another, so such a list has a type of its own. `Call` has these cases itself, and holds no
/// `Access`, so that a get, a put and a renewal are written alike.
#[derive(Clone, Copy)]
pub enum Access {
    Get { record: usize },
    Put { record: usize, value: u32 },
}

/// A call in a list, with the place of its answer. The caller lends the place, so that no list lacks memory for it.
#[derive(Clone, Copy, Drop)]
pub struct Entry<C> {
    pub call: C,
    /// None in a new entry.
    pub answer: Option<Result<u32, StoreFault>>,
}

impl<C> Entry<C> {
    ghost use Rattle.std.specs.Prelude.{◌≡◌, None};

    /// A call that was not made yet.
    pub fn new(call: C) -> Entry<C>
        ensures call { result.call ≡ call }
        ensures answer { result.answer ≡ None }
    {
        Entry { call, answer: None }
    }
}
