// Makings: the check of a group, an array and n, and stores that are made against it.
// Such a store has no records.
use crate::runs::*;
use cells::array::CellArray;
use cells::bench::Bench;
use cells::paired::Paired;
use coset::code::Code;
use group::integers::Integers;
use group::product::Product;
use group::vectors::Vectors;
use std::process::Abort;
use std::test::Fail;
use store::making::{MakingFault, check_making};

// A modulus, n, and the outcome.
fn check_makings<A: CellArray>(
    rt: &impl Abort,
    array: &A,
    cases: &[(u32, usize, Result<(), MakingFault>)],
) {
    for (modulus, n, outcome) in cases {
        assert_eq!(rt;
            check_making(&Code::new(Integers::new(*modulus), *n), array),
            *outcome,
            "modulo {modulus}, n = {n}"
        );
    }
}

// The width is 64, and then 32.
#[test]
fn the_first_row_that_holds_is_answered(rt: HostRuntime) {
    let bench = Bench::new();
    check_makings(
        &rt,
        &bench,
        &[
            (64, 63, Ok(())),
            (64, 64, Err(MakingFault::Cells)),
            (65, 63, Err(MakingFault::Unusable)),
            (2, 1, Ok(())),
            (1, 1, Err(MakingFault::Unusable)),
            (2, 0, Err(MakingFault::Cells)),
            (1, 0, Err(MakingFault::Unusable)),
            (7, usize::MAX, Err(MakingFault::Cells)),
        ],
    );
    check_makings(
        &rt,
        &Paired::new(bench),
        &[
            (7, 32, Ok(())),
            (7, 33, Err(MakingFault::Narrow)),
            (7, 64, Err(MakingFault::Cells)),
            (65, 33, Err(MakingFault::Unusable)),
        ],
    );
}

#[test]
fn groups_of_every_kind_are_checked(rt: HostRuntime) {
    let bench = Bench::new();
    assert_eq!(rt;
        check_making(&Code::new(Vectors::new(6), 63), &bench),
        Ok(())
    );
    assert_eq!(rt;
        check_making(&Code::new(Vectors::new(7), 63), &bench),
        Err(MakingFault::Unusable)
    );
    let eight = Integers::new(8);
    assert_eq!(rt;
        check_making(&Code::new(Product::new(eight, eight), 63), &bench),
        Ok(())
    );
    assert_eq!(rt;
        check_making(
            &Code::new(Product::new(eight, Integers::new(9)), 63),
            &bench
        ),
        Err(MakingFault::Unusable)
    );
}

#[test]
fn a_store_made_against_its_check_has_no_records(rt: HostRuntime) -> Result<(), Fail> {
    let mut bench = Bench::new();
    mark_all(&mut bench, 0, &[5, 6])?;
    let cases = [(65, 6), (1, 1), (7, 0), (7, 64), (7, usize::MAX), (0, 0)];
    for (modulus, n) in cases {
        check_no_records(
            &rt,
            rt.alloc(),
            Code::new(Integers::new(modulus), n),
            &mut bench,
        )?;
    }
    check_no_records(&rt, rt.alloc(), Code::new(Vectors::new(7), 6), &mut bench)?;
    check_page(&rt, rt.alloc(), &bench, 0, &[5, 6], 0)?;
    let mut narrow = Paired::new(bench);
    check_no_records(
        &rt,
        rt.alloc(),
        Code::new(Integers::new(7), 33),
        &mut narrow,
    )?;
    check_page(&rt, rt.alloc(), &narrow, 0, &[2, 3], 0)
}
