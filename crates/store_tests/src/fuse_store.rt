// The store over a fuse image: gets and puts alone, since nothing there is ever erased.
// A set cell is a 1 bit.
use crate::runs::{check_accesses, full, ledger, no_record, no_value};
use calls::call::Access;
use coset::code::Code;
use group::integers::Integers;
use group::vectors::Vectors;
use images::fuse::FuseBank;
use std::test::Fail;

// These make an `Access`, and those of `runs` a `Call`. A trait for both would have the same four bodies in its impls.
fn get(record: usize) -> Access {
    Access::Get { record }
}

fn put(record: usize, value: u32) -> Access {
    Access::Put { record, value }
}

// Four records of six cells: label 1 is set in record 0, label 4 in record 1, labels 3 and 4 in record 2, label 6 in
// record 3.
#[test]
fn fuses_that_are_set_already(rt: HostRuntime) -> Result<(), Fail> {
    let mut image = [2, 0, 12, 0x01, 0x02, 0x0c, 0x08];
    let counted = check_accesses(
        &rt,
        rt.alloc(),
        Code::new(Integers::new(7), 6),
        &mut FuseBank::over(&mut image),
        &[
            (get(0), Ok(1)),
            (get(1), Ok(4)),
            (get(2), Ok(0)),
            (get(3), Ok(6)),
            (get(4), no_record(4)),
            (put(0, 3), Ok(1)),
            (put(1, 6), Ok(1)),
            (put(2, 5), Ok(1)),
            (put(3, 0), Ok(1)),
            (get(3), Ok(0)),
        ],
    )?;
    assert_eq!(rt; counted, ledger(4, 0, 4));
    assert_eq!(rt; counted.rate(), None);
    assert_eq!(rt; image, [2, 0, 12, 0x83, 0x02, 0x5c, 0x08]);
    Ok(())
}

#[test]
fn fuses_fill_up(rt: HostRuntime) -> Result<(), Fail> {
    let mut image = [1, 0, 7, 0x00];
    let counted = check_accesses(
        &rt,
        rt.alloc(),
        Code::new(Vectors::new(2), 3),
        &mut FuseBank::over(&mut image),
        &[
            (put(0, 1), Ok(1)),
            (put(0, 1), Ok(0)),
            (put(0, 0), Ok(2)),
            (put(1, 2), Ok(1)),
            (put(0, 3), full(0)),
            (put(1, 4), no_value(1)),
            (get(0), Ok(0)),
            (get(1), Ok(2)),
        ],
    )?;
    assert_eq!(rt; counted, ledger(3, 0, 4));
    assert_eq!(rt; image, [1, 0, 7, 0x17]);
    Ok(())
}

#[test]
fn over_refused_bytes_there_are_no_records(rt: HostRuntime) -> Result<(), Fail> {
    let cases: [&[u8]; 3] = [&[], &[1, 0, 6, 0x80], &[1, 0, 6, 0x00, 0x00]];
    for bytes in cases {
        let mut image = bytes.to_vec(rt.alloc())?;
        let counted = check_accesses(
            &rt,
            rt.alloc(),
            Code::new(Integers::new(7), 6),
            &mut FuseBank::over(&mut image),
            &[(get(0), no_record(0)), (put(0, 0), no_record(0))],
        )?;
        assert_eq!(rt; counted, ledger(0, 0, 0));
        assert_eq!(rt; image.as_slice(), bytes);
    }
    Ok(())
}
