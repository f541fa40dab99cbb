// What the tests ask of a store: tables of calls with their answers, and which cells are set afterwards.
// The checks take the runtime, by which a test fails, and what allocates takes the heap.
use calls::call::{Access, Call, Entry};
use calls::fault::StoreFault;
use calls::ledger::Ledger;
use cells::array::{CellArray, Erasable};
use cells::fault::DeviceFault;
use coset::code::Code;
use group::interface::Group;
use std::alloc::{AllocError, Global};
use std::process::Abort;
use std::test::Fail;
use store::run::{serve_accesses, serve_calls};
use store::store::Store;

pub type Answer = Result<u32, StoreFault>;

// Makes a store over the array and serves the calls. Each must get the answer that stands beside it.
pub fn check_calls<G: Group + Drop, A: Erasable>(
    rt: &impl Abort,
    heap: Global,
    code: Code<G>,
    array: &mut A,
    cases: &[(Call, Answer)],
) -> Result<Ledger, Fail> {
    let mut entries = entries_of(heap, cases)?;
    let counted = serve_calls(code, array, &mut entries);
    check_answers(rt, &entries, cases);
    Ok(counted)
}

// The same over any cell array, with gets and puts alone. There are two, as there are two functions to try.
pub fn check_accesses<G: Group + Drop, A: CellArray>(
    rt: &impl Abort,
    heap: Global,
    code: Code<G>,
    array: &mut A,
    cases: &[(Access, Answer)],
) -> Result<Ledger, Fail> {
    let mut entries = entries_of(heap, cases)?;
    let counted = serve_accesses(code, array, &mut entries);
    check_answers(rt, &entries, cases);
    Ok(counted)
}

fn entries_of<C: Copy + Drop>(
    heap: Global,
    cases: &[(C, Answer)],
) -> Result<Vec<Entry<C>>, AllocError> {
    cases.iter().map(|case| Entry::new(case.0)).collect(heap)
}

fn check_answers<C>(rt: &impl Abort, entries: &[Entry<C>], cases: &[(C, Answer)]) {
    for (i, (entry, case)) in entries.iter().zip(cases).enumerate() {
        assert_eq!(rt; entry.answer, Some(case.1), "call {i}");
    }
}

// The set cells of a page, in rising order.
pub fn set_cells<A: CellArray>(heap: Global, array: &A, page: usize) -> Result<Vec<usize>, Fail> {
    array.check_page(page)?;
    let cells = (0..array.width()).filter(|cell| array.is_set(page, *cell));
    Ok(cells.collect(heap)?)
}

// That these and no other cells of a page are set, and that the page has this wear.
// `cells_tests` has one of its own: all that is there is `cfg(test)`, so that no other crate can use it.
pub fn check_page<A: Erasable>(
    rt: &impl Abort,
    heap: Global,
    array: &A,
    page: usize,
    cells: &[usize],
    wear: u32,
) -> Result<(), Fail> {
    let (worn, _) = array.wear(page)?;
    assert_eq!(rt; worn, wear, "wear of page {page}");
    assert_eq!(rt;
        set_cells(heap, array, page)?.as_slice(),
        cells,
        "page {page}"
    );
    Ok(())
}

// That a store made of these has this many records.
pub fn check_records<G: Group + Drop, A: CellArray + Drop>(
    rt: &impl Abort,
    code: Code<G>,
    array: A,
    records: usize,
) -> Result<(), Fail> {
    let pages = array.pages();
    let width = array.width();
    let n = code.cells;
    let store = Store::new(code, array);
    assert_eq!(rt;
        store.records(),
        records,
        "{pages} pages of {width}, n = {n}"
    );
    Ok(())
}

// That a store made of these has no records, and so refuses every call.
pub fn check_no_records<G: Group + Copy + Drop, A: Erasable>(
    rt: &impl Abort,
    heap: Global,
    code: Code<G>,
    array: &mut A,
) -> Result<(), Fail> {
    let counted = check_calls(
        rt,
        heap,
        code,
        array,
        &[
            (get(0), no_record(0)),
            (put(0, 0), no_record(0)),
            (put(0, 99), no_record(0)),
            (renew(0, 0), no_record(0)),
            (renew(1, 99), no_record(1)),
            (get(usize::MAX), no_record(usize::MAX)),
        ],
    )?;
    assert_eq!(rt; counted, ledger(0, 0, 0));
    assert_eq!(rt; Store::new(code, array).records(), 0);
    Ok(())
}

pub fn mark_all<A: CellArray>(
    array: &mut A,
    page: usize,
    cells: &[usize],
) -> Result<(), DeviceFault> {
    for cell in cells {
        array.mark(page, *cell)?;
    }
    Ok(())
}

pub fn ledger(changes: u32, renewals: u32, marked: u32) -> Ledger {
    Ledger {
        changes,
        renewals,
        marked,
    }
}

// These shorten the tables. Each names a case of an enum, and no two the same, so one function cannot stand for them.
pub fn get(record: usize) -> Call {
    Call::Get { record }
}

pub fn put(record: usize, value: u32) -> Call {
    Call::Put { record, value }
}

pub fn renew(record: usize, value: u32) -> Call {
    Call::Renew { record, value }
}

pub fn no_record(record: usize) -> Answer {
    Err(StoreFault::NoRecord { record })
}

pub fn no_value(record: usize) -> Answer {
    Err(StoreFault::NoValue { record })
}

pub fn full(record: usize) -> Answer {
    Err(StoreFault::Full { record })
}

pub fn fits(record: usize) -> Answer {
    Err(StoreFault::Fits { record })
}

pub fn unreached(record: usize) -> Answer {
    Err(StoreFault::Unreached { record })
}

pub fn worn(record: usize, page: usize) -> Answer {
    Err(StoreFault::Device {
        record,
        fault: DeviceFault::Worn { page },
    })
}
