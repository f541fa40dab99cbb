// What the tests ask of an array of any kind.
// Only the last function here sets cells and wears a page; the others look, or ask for what must be refused.
// Each takes the runtime, by which a test fails, beside its array, and counts or places as numbers: a struct would be
// made for each call.
use cells::array::{CellArray, Erasable};
use cells::fault::DeviceFault;
use std::process::Abort;
use std::test::Fail;

// That these and no other cells of a page are set.
pub fn check_set<A: CellArray>(rt: &impl Abort, array: &A, page: usize, cells: &[usize]) {
    // A loop, since each turn asserts something of its cell.
    for cell in 0..array.width() {
        assert_eq!(rt;
            array.look(page, cell),
            Ok(cells.contains(&cell)),
            "page {page}, cell {cell}"
        );
    }
}

// The same, and that the page has this wear and limit.
pub fn check_page<A: Erasable>(
    rt: &impl Abort,
    array: &A,
    page: usize,
    cells: &[usize],
    wear: (u32, u32),
) {
    assert_eq!(rt; array.wear(page), Ok(wear), "page {page}");
    check_set(rt, array, page, cells);
}

// The counts, and that looks and marks of the first page and of the first cell past them are refused.
pub fn check_counts<A: CellArray>(rt: &impl Abort, array: &mut A, pages: usize, width: usize) {
    assert_eq!(rt; (array.pages(), array.width()), (pages, width));
    for cell in [0, width, usize::MAX] {
        let fault = DeviceFault::NoPage {
            page: pages,
            cell: Some(cell),
        };
        assert_eq!(rt; array.look(pages, cell), Err(fault));
        assert_eq!(rt; array.mark(pages, cell), Err(fault));
    }
    // A loop, since each turn asserts something of its page.
    for page in 0..pages {
        let fault = DeviceFault::NoCell { page, cell: width };
        assert_eq!(rt; array.look(page, width), Err(fault));
        assert_eq!(rt; array.mark(page, width), Err(fault));
    }
}

// The same, and that wear and erase of the first page past the count are refused.
pub fn check_erasable_counts<A: Erasable>(
    rt: &impl Abort,
    array: &mut A,
    pages: usize,
    width: usize,
) {
    let fault = DeviceFault::NoPage {
        page: pages,
        cell: None,
    };
    assert_eq!(rt; array.wear(pages), Err(fault));
    assert_eq!(rt; array.erase(pages), Err(fault));
    check_counts(rt, array, pages, width);
}

// Over two fresh pages that last three erases: page 0 is erased with `cell` set until that is refused, and page 1 keeps
// its own cell.
pub fn check_wears_out<A: Erasable>(
    rt: &impl Abort,
    array: &mut A,
    cell: usize,
) -> Result<(), Fail> {
    array.mark(1, cell)?;
    // A loop, since each turn asserts something of the wear so far.
    for worn in 0..3 {
        array.mark(0, cell)?;
        check_page(rt, array, 0, &[cell], (worn, 3));
        array.erase(0)?;
        check_page(rt, array, 0, &[], (worn + 1, 3));
    }
    array.mark(0, cell)?;
    assert_eq!(rt; array.erase(0), Err(DeviceFault::Worn { page: 0 }));
    // the refused erase has altered nothing, nor has any erase in the other page
    check_page(rt, array, 0, &[cell], (3, 3));
    check_page(rt, array, 1, &[cell], (0, 3));
    Ok(())
}
