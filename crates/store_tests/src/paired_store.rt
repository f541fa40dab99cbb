// The store over a paired part: each cell of a record stands on two cells below.
// What the calls do is seen in the array or the image below.
use crate::runs::*;
use calls::call::Call;
use calls::ledger::Ledger;
use cells::array::Erasable;
use cells::bench::Bench;
use cells::paired::Paired;
use coset::code::Code;
use group::vectors::Vectors;
use images::flash::FlashPart;
use std::alloc::Global;
use std::process::Abort;
use std::test::Fail;

// Calls of a store of binary vectors of two bits, over the pairs of an array.
fn check_pairs<A: Erasable + Drop>(
    rt: &impl Abort,
    heap: Global,
    below: A,
    cases: &[(Call, Answer)],
) -> Result<Ledger, Fail> {
    let mut paired = Paired::new(below);
    check_calls(rt, heap, Code::new(Vectors::new(2), 3), &mut paired, cases)
}

// Ten records of three pairs to a page. In page 1 both cells below each cell of record 19 are set, and one of the two
// below the second cell of record 11. Cell 60 below is in a pair of no record.
#[test]
fn pairs_of_a_bench_part(rt: HostRuntime) -> Result<(), Fail> {
    let mut bench = Bench::new();
    mark_all(&mut bench, 1, &[9, 54, 55, 56, 57, 58, 59, 60])?;
    let mut paired = Paired::new(bench);
    let counted = check_calls(
        &rt,
        rt.alloc(),
        Code::new(Vectors::new(2), 3),
        &mut paired,
        &[
            (put(0, 3), Ok(1)),
            (get(11), Ok(2)),
            (put(19, 1), full(19)),
            (renew(19, 1), Ok(2)),
            (get(11), Ok(2)),
            (get(20), no_record(20)),
        ],
    )?;
    assert_eq!(rt; counted, ledger(1, 1, 3));
    let below = paired.into_inner();
    check_page(&rt, rt.alloc(), &below, 0, &[4, 5], 0)?;
    check_page(&rt, rt.alloc(), &below, 1, &[8, 9, 54, 55], 1)
}

// The last byte of an image of seven cells before and after a call, and the wear after it.
#[test]
fn pairs_of_a_flash_image(rt: HostRuntime) -> Result<(), Fail> {
    let cases = [
        (0xf6, get(0), Ok(3), 0xf6, 0),
        (0xf6, put(0, 0), Ok(1), 0xc6, 0),
        (0xf6, put(0, 3), Ok(0), 0xf6, 0),
        (0x80, put(0, 2), full(0), 0x80, 0),
        (0x80, renew(0, 2), Ok(1), 0xf3, 1),
        (0x80, get(1), no_record(1), 0x80, 0),
    ];
    for (before, call, answer, after, wear) in cases {
        let mut image = [1, 0, 0, 0, 0, 0, 7, before];
        check_pairs(
            &rt,
            rt.alloc(),
            FlashPart::over(&mut image),
            &[(call, answer)],
        )?;
        assert_eq!(rt; image, [1, 0, 0, 0, wear, 0, 7, after]);
    }
    Ok(())
}

// Two pages of 15 cells, each of two bytes. A page has two records of three pairs, then the pair of cells 12 and 13,
// and cell 14 in no pair. A set cell is a 0 bit, and cell 0 is the lowest bit of the first byte.
// Page 0 is worn out. Its cells 3, 6 and 14 are set: half of the pair of label 2 in record 0, and half of that of
// label 1 in record 1. The puts set label 3 in record 0, which is cells 4 and 5, and labels 2 and 3 in record 1, which
// is cells 8 to 11. Then record 1 has no pair left, and its page refuses a renewal.
// Page 1 was erased 255 times. Its cells 0, 3, 4, 9, 13 and 14 are set: half of each pair of record 2, and half of the
// pair of label 2 in record 3. The renewal sets label 3 in record 2, which is cells 4 and 5, and label 2 in record 3,
// which is cells 8 and 9.
#[test]
fn a_list_on_pairs_of_a_flash_image(rt: HostRuntime) -> Result<(), Fail> {
    let mut image = [
        2, 0, 0, 0x27, 0x10, 0, 0, 0, 0xff, 0, 15, 0xb7, 0xbf, 0xe6, 0x9d,
    ];
    let counted = check_pairs(
        &rt,
        rt.alloc(),
        FlashPart::over(&mut image),
        &[
            (put(0, 1), Ok(1)),
            (put(1, 0), Ok(2)),
            (renew(1, 1), worn(1, 0)),
            (renew(2, 3), Ok(2)),
        ],
    )?;
    assert_eq!(rt; counted, ledger(2, 1, 5));
    assert_eq!(rt;
        image,
        [
            2, 0, 0, 0x27, 0x10, 0, 0, 1, 0, 0, 15, 0x87, 0xb0, 0xcf, 0xfc
        ]
    );
    Ok(())
}
