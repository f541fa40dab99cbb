// The paired part, over each of the other parts.
// What it writes is seen in the array or the image below.
use crate::arrays::{check_erasable_counts, check_page, check_set, check_wears_out};
use crate::sample_images::FUSE;
use cells::array::{CellArray, Erasable};
use cells::bench::Bench;
use cells::fault::DeviceFault;
use cells::paired::Paired;
use images::flash::FlashPart;
use images::fuse::FuseBank;
use std::process::Abort;
use std::test::Fail;

// Over two pages of 12 cells, as FUSE has them: marks of cell 3 of page 0 and cell 5 of page 1, which is set already.
fn mark_pairs<A: CellArray + Drop>(rt: &impl Abort, below: A) -> Result<(), Fail> {
    let mut paired = Paired::new(below);
    check_set(rt, &paired, 0, &[0, 4]);
    check_set(rt, &paired, 1, &[1, 5]);
    paired.mark(0, 3)?;
    paired.mark(1, 5)?;
    check_set(rt, &paired, 0, &[0, 3, 4]);
    check_set(rt, &paired, 1, &[1, 5]);
    Ok(())
}

// Over five cells, of which the last may be set: marks of both cells.
fn mark_odd_pairs<A: Erasable + Drop>(rt: &impl Abort, below: A) -> Result<(), Fail> {
    let mut paired = Paired::new(below);
    check_erasable_counts(rt, &mut paired, 1, 2);
    check_set(rt, &paired, 0, &[]);
    paired.mark(0, 0)?;
    paired.mark(0, 1)?;
    check_set(rt, &paired, 0, &[0, 1]);
    Ok(())
}

fn erase_pairs<A: Erasable + Drop>(below: A, page: usize) -> Result<(), DeviceFault> {
    Paired::new(below).erase(page)
}

// Cells 4 and 7 below are set, the first of one pair and the second of the next.
#[test]
fn a_paired_cell_stands_on_two_below(rt: HostRuntime) -> Result<(), Fail> {
    let mut bench = Bench::new();
    bench.mark(0, 4)?;
    bench.mark(0, 7)?;
    let mut paired = Paired::new(bench);
    check_erasable_counts(&rt, &mut paired, 2, 32);
    check_set(&rt, &paired, 0, &[2, 3]);
    paired.mark(0, 2)?;
    paired.mark(1, 31)?;
    check_set(&rt, &paired, 0, &[2, 3]);
    check_set(&rt, &paired, 1, &[31]);
    let below = paired.into_inner();
    check_set(&rt, &below, 0, &[4, 5, 7]);
    check_set(&rt, &below, 1, &[62, 63]);
    Ok(())
}

#[test]
fn a_paired_fuse_bank_marks_two_bits(rt: HostRuntime) -> Result<(), Fail> {
    let mut image = FUSE;
    mark_pairs(&rt, FuseBank::over(&mut image))?;
    assert_eq!(rt; image, [2, 0, 12, 0xc1, 0x02, 0x0c, 0x0c]);
    Ok(())
}

#[test]
fn over_an_odd_width_the_last_cell_is_never_used(rt: HostRuntime) -> Result<(), Fail> {
    let mut unset = [1, 0, 0, 0, 0, 0, 5, 0xff];
    mark_odd_pairs(&rt, FlashPart::over(&mut unset))?;
    assert_eq!(rt; unset, [1, 0, 0, 0, 0, 0, 5, 0xf0]);
    let mut set = [1, 0, 0, 0, 0, 0, 5, 0xef];
    mark_odd_pairs(&rt, FlashPart::over(&mut set))?;
    assert_eq!(rt; set, [1, 0, 0, 0, 0, 0, 5, 0xe0]);
    erase_pairs(FlashPart::over(&mut set), 0)?;
    assert_eq!(rt; set, [1, 0, 0, 0, 1, 0, 5, 0xff]);
    Ok(())
}

#[test]
fn a_paired_erase_erases_the_page_below(rt: HostRuntime) -> Result<(), Fail> {
    let mut paired = Paired::new(Bench::new());
    check_wears_out(&rt, &mut paired, 31)?;
    let below = paired.into_inner();
    check_page(&rt, &below, 0, &[62, 63], (3, 3));
    check_page(&rt, &below, 1, &[62, 63], (0, 3));
    Ok(())
}
