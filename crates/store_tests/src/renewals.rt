// Renewals on a bench part: what becomes of the page and of its other records, and how a page wears out.
// The part has two pages of 64 cells, each good for three erases.
use crate::runs::*;
use cells::bench::Bench;
use coset::code::Code;
use group::integers::Integers;
use group::vectors::Vectors;
use std::test::Fail;

// Ten records of six cells to a page, and four cells of no record at its end.
#[test]
fn records_lie_in_a_row(rt: HostRuntime) -> Result<(), Fail> {
    let mut bench = Bench::new();
    mark_all(&mut bench, 0, &[60, 61, 62, 63])?;
    let counted = check_calls(
        &rt,
        rt.alloc(),
        Code::new(Integers::new(7), 6),
        &mut bench,
        &[
            (put(0, 1), Ok(1)),
            (put(9, 6), Ok(1)),
            (put(10, 2), Ok(1)),
            (put(19, 5), Ok(1)),
            (put(20, 0), no_record(20)),
            (put(20, 7), no_record(20)),
            (get(9), Ok(6)),
        ],
    )?;
    assert_eq!(rt; counted, ledger(4, 0, 4));
    check_page(&rt, rt.alloc(), &bench, 0, &[0, 59, 60, 61, 62, 63], 0)?;
    check_page(&rt, rt.alloc(), &bench, 1, &[1, 58], 0)
}

// In page 1, record 10 has the labels 4, 5 and 6 set, record 13 all six, record 14 the labels 1 and 5, and record 19
// the label 2. The cells 60 and 63 belong to no record.
#[test]
fn a_renewal_keeps_the_other_records(rt: HostRuntime) -> Result<(), Fail> {
    let mut bench = Bench::new();
    mark_all(&mut bench, 0, &[0, 1, 19, 62])?;
    mark_all(
        &mut bench,
        1,
        &[3, 4, 5, 18, 19, 20, 21, 22, 23, 24, 28, 55, 60, 63],
    )?;
    let counted = check_calls(
        &rt,
        rt.alloc(),
        Code::new(Integers::new(7), 6),
        &mut bench,
        &[
            (put(13, 5), full(13)),
            (renew(13, 5), Ok(4)),
            (get(10), Ok(1)),
            (get(11), Ok(0)),
            (get(13), Ok(5)),
            (get(14), Ok(6)),
            (get(19), Ok(2)),
            (get(0), Ok(3)),
            (get(3), Ok(2)),
        ],
    )?;
    assert_eq!(rt; counted, ledger(0, 1, 4));
    check_page(&rt, rt.alloc(), &bench, 0, &[0, 1, 19, 62], 0)?;
    check_page(&rt, rt.alloc(), &bench, 1, &[0, 22, 29, 55], 1)
}

// Record 0 has all its cells set before each renewal. Record 21 is the first of page 1.
#[test]
fn the_fourth_renewal_of_a_page_is_refused(rt: HostRuntime) -> Result<(), Fail> {
    let mut bench = Bench::new();
    let counted = check_calls(
        &rt,
        rt.alloc(),
        Code::new(Vectors::new(2), 3),
        &mut bench,
        &[
            (put(0, 3), Ok(1)),
            (put(0, 0), Ok(2)),
            (renew(0, 3), Ok(1)),
            (put(0, 0), Ok(2)),
            (renew(0, 3), Ok(1)),
            (put(0, 0), Ok(2)),
            (renew(0, 3), Ok(1)),
            (put(0, 0), Ok(2)),
            (renew(0, 3), worn(0, 0)),
            (get(0), Ok(0)),
            (put(21, 3), Ok(1)),
            (put(21, 0), Ok(2)),
            (renew(21, 2), Ok(1)),
        ],
    )?;
    assert_eq!(rt; counted, ledger(7, 4, 16));
    assert_eq!(rt; counted.rate(), Some(175));
    check_page(&rt, rt.alloc(), &bench, 0, &[0, 1, 2], 3)?;
    check_page(&rt, rt.alloc(), &bench, 1, &[1], 1)
}
