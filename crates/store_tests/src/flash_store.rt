// The store over a flash image: the bytes that calls write, the wear counts, and images that are refused.
// A set cell is a 0 bit.
use crate::runs::*;
use coset::code::Code;
use group::integers::Integers;
use group::vectors::Vectors;
use images::flash::{FlashPart, MAX_IMAGE};
use images::fresh::write_fresh;
use std::test::Fail;

#[test]
fn one_record_to_a_page(rt: HostRuntime) -> Result<(), Fail> {
    let mut image = [2, 0, 0, 0, 0, 0, 0, 0, 0, 0, 6, 0xff, 0xff];
    let counted = check_calls(
        &rt,
        rt.alloc(),
        Code::new(Integers::new(7), 6),
        &mut FlashPart::over(&mut image),
        &[
            (put(0, 3), Ok(1)),
            (put(1, 5), Ok(1)),
            (get(0), Ok(3)),
            (get(1), Ok(5)),
            (get(2), no_record(2)),
        ],
    )?;
    assert_eq!(rt; counted, ledger(2, 0, 2));
    assert_eq!(rt; image, [2, 0, 0, 0, 0, 0, 0, 0, 0, 0, 6, 0xfb, 0xef]);
    Ok(())
}

// Pages and width of a fresh image, n, and the records.
#[test]
fn records_by_pages_and_width(rt: HostRuntime) -> Result<(), Fail> {
    let cases = [
        (2, 5, 6, 0),
        (2, 6, 6, 2),
        (2, 11, 6, 2),
        (2, 12, 6, 4),
        (1, 63, 63, 1),
        (1, 1_024, 63, 16),
        (1, 1_024, 17, 60),
        (1, 1_024, 16, 64),
        (64, 1_024, 1, 4_096),
        (64, 63, 1, 4_032),
    ];
    for (pages, width, n, records) in cases {
        let mut image = [0; MAX_IMAGE];
        let size = write_fresh(&mut image, pages, width)?;
        let part = FlashPart::over(&mut image[..size]);
        check_records(&rt, Code::new(Integers::new(7), n), part, records)?;
    }
    Ok(())
}

// Of 1,024 cells to a page the first 64 are records of one cell. The last record has bit 7 of byte 7 of page 63, and
// the pages of 128 bytes begin at byte 259.
#[test]
fn the_last_of_the_most_records(rt: HostRuntime) -> Result<(), Fail> {
    let mut image = [0; MAX_IMAGE];
    write_fresh(&mut image, 64, 1_024)?;
    let mut expected = image;
    expected[259 + 63 * 128 + 7] = 0x7f;
    check_calls(
        &rt,
        rt.alloc(),
        Code::new(Integers::new(2), 1),
        &mut FlashPart::over(&mut image),
        &[(put(4_095, 1), Ok(1)), (put(4_096, 1), no_record(4_096))],
    )?;
    assert_eq!(rt; image, expected);
    Ok(())
}

// Page 1 has been erased 9,999 times. There record 2 has the label 2 set, and record 3 all three labels.
#[test]
fn the_last_renewal_of_a_page(rt: HostRuntime) -> Result<(), Fail> {
    let mut image = [2, 0, 0, 0, 0, 0, 0, 0x27, 0x0f, 0, 6, 0xff, 0xc5];
    let last = [(renew(3, 3), Ok(2))];
    let mut part = FlashPart::over(&mut image);
    let counted = check_calls(
        &rt,
        rt.alloc(),
        Code::new(Vectors::new(2), 3),
        &mut part,
        &last,
    )?;
    assert_eq!(rt; counted, ledger(0, 1, 2));
    assert_eq!(rt; image, [2, 0, 0, 0, 0, 0, 0, 0x27, 0x10, 0, 6, 0xff, 0xdd]);
    let past = [
        (renew(3, 0), fits(3)),
        (put(3, 0), Ok(2)),
        (renew(3, 1), worn(3, 1)),
        (get(3), Ok(0)),
    ];
    let mut part = FlashPart::over(&mut image);
    let counted = check_calls(
        &rt,
        rt.alloc(),
        Code::new(Vectors::new(2), 3),
        &mut part,
        &past,
    )?;
    assert_eq!(rt; counted, ledger(1, 0, 2), "the put alone is counted");
    assert_eq!(rt; image, [2, 0, 0, 0, 0, 0, 0, 0x27, 0x10, 0, 6, 0xff, 0xc5]);
    Ok(())
}

// The page is worn, and the only cell of record 0 is set: it holds 1, and 0 and 1 alone can be reached. Of the rows
// that hold, the first is answered.
#[test]
fn refusals_go_in_order_and_write_nothing(rt: HostRuntime) -> Result<(), Fail> {
    let mut image = [1, 0, 0, 0x27, 0x10, 0, 2, 0xfe];
    let counted = check_calls(
        &rt,
        rt.alloc(),
        Code::new(Integers::new(4), 1),
        &mut FlashPart::over(&mut image),
        &[
            (get(2), no_record(2)),
            (put(2, 4), no_record(2)),
            (put(0, 4), no_value(0)),
            (put(0, 2), full(0)),
            (renew(2, 4), no_record(2)),
            (renew(0, 4), no_value(0)),
            (renew(0, 1), fits(0)),
            (renew(0, 2), unreached(0)),
            (renew(0, 0), worn(0, 0)),
        ],
    )?;
    assert_eq!(rt; counted, ledger(0, 0, 0));
    assert_eq!(rt; image, [1, 0, 0, 0x27, 0x10, 0, 2, 0xfe]);
    Ok(())
}

#[test]
fn over_refused_bytes_there_are_no_records(rt: HostRuntime) -> Result<(), Fail> {
    let cases: [&[u8]; 5] = [
        &[],
        &[1, 0, 0, 0, 0, 0, 6],
        &[1, 0, 0, 0, 0, 0, 6, 0x7f],
        &[1, 0, 0, 0, 0, 0, 6, 0xff, 0x00],
        &[1, 0, 0, 0x27, 0x11, 0, 6, 0xff],
    ];
    for bytes in cases {
        let mut image = bytes.to_vec(rt.alloc())?;
        check_no_records(
            &rt,
            rt.alloc(),
            Code::new(Integers::new(7), 6),
            &mut FlashPart::over(&mut image),
        )?;
        assert_eq!(rt; image.as_slice(), bytes);
    }
    Ok(())
}
