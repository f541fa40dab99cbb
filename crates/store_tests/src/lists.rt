// Lists of calls as a whole: a history with every kind of call, a list of none, a long list, and lists one after
// another.
// The answers, the ledger and what is set afterwards are all known.
use crate::runs::*;
use calls::call::{Access, Call, Entry};
use cells::array::CellArray;
use cells::bench::Bench;
use coset::code::Code;
use group::integers::Integers;
use group::vectors::Vectors;
use images::flash::{FlashPart, MAX_IMAGE};
use images::fresh::write_fresh;
use std::test::Fail;
use store::store::Store;

#[test]
fn a_history_with_every_kind_of_call(rt: HostRuntime) -> Result<(), Fail> {
    let mut image = [0; MAX_IMAGE];
    let size = write_fresh(&mut image, 1, 6)?;
    let counted = check_calls(
        &rt,
        rt.alloc(),
        Code::new(Vectors::new(2), 3),
        &mut FlashPart::over(&mut image[..size]),
        &[
            (put(0, 1), Ok(1)),
            (put(0, 0), Ok(2)),
            (put(1, 2), Ok(1)),
            (put(0, 3), full(0)),
            (renew(1, 3), fits(1)),
            (put(0, 3), full(0)),
            (renew(0, 3), Ok(2)),
            (get(1), Ok(2)),
            (get(2), no_record(2)),
        ],
    )?;
    assert_eq!(rt; counted, ledger(3, 1, 6));
    assert_eq!(rt; counted.rate(), Some(300));
    assert_eq!(rt;
        &image[..size],
        [1, 0, 0, 0, 1, 0, 6, 0xeb].as_slice(),
        "cells 2 and 4 are set"
    );
    Ok(())
}

#[test]
fn no_calls(rt: HostRuntime) -> Result<(), Fail> {
    let mut bench = Bench::new();
    bench.mark(0, 4)?;
    let called = check_calls(
        &rt,
        rt.alloc(),
        Code::new(Vectors::new(2), 3),
        &mut bench,
        &[],
    )?;
    assert_eq!(rt; called, ledger(0, 0, 0));
    assert_eq!(rt; called.rate(), None);
    let accessed = check_accesses(
        &rt,
        rt.alloc(),
        Code::new(Vectors::new(2), 3),
        &mut bench,
        &[],
    )?;
    assert_eq!(rt; accessed, ledger(0, 0, 0));
    assert_eq!(rt;
        set_cells(rt.alloc(), &bench, 0)?.as_slice(),
        [4].as_slice()
    );
    Ok(())
}

// Of a long list modulo 7, the call at a place and its answer. Record after record is put to a value, which the get
// after the put answers. There are twenty records: from place 40 on the puts are of held values.
fn long_case(place: usize) -> (Call, Answer) {
    let record = place / 2 % 20;
    let value = [1, 2, 3, 4, 5, 6][record % 6];
    if place % 2 == 1 {
        return (get(record), Ok(value));
    }
    (put(record, value), Ok(u32::from(place < 40)))
}

// Each record has one cell set, the one whose label is its value.
#[test]
fn a_hundred_calls(rt: HostRuntime) -> Result<(), Fail> {
    let cases: Vec<(Call, Answer)> = (0..100).map(long_case).collect(rt.alloc())?;
    let mut bench = Bench::new();
    let counted = check_calls(
        &rt,
        rt.alloc(),
        Code::new(Integers::new(7), 6),
        &mut bench,
        &cases,
    )?;
    assert_eq!(rt; counted, ledger(20, 0, 20));
    check_page(
        &rt,
        rt.alloc(),
        &bench,
        0,
        &[0, 7, 14, 21, 28, 35, 36, 43, 50, 57],
        0,
    )?;
    check_page(
        &rt,
        rt.alloc(),
        &bench,
        1,
        &[4, 11, 12, 19, 26, 33, 40, 47, 48, 55],
        0,
    )
}

// The second list goes on from the first, and so does each call that is made alone.
#[test]
fn lists_and_calls_on_one_store(rt: HostRuntime) -> Result<(), Fail> {
    let mut store = Store::new(Code::new(Vectors::new(2), 3), Bench::new());
    assert_eq!(rt; store.records(), 42);
    let mut calls = [put(41, 3), get(41)].map(Entry::new);
    store.serve_all(&mut calls);
    assert_eq!(rt; calls.map(|entry| entry.answer), [Some(Ok(1)), Some(Ok(3))]);
    assert_eq!(rt; store.ledger(), ledger(1, 0, 1));
    let mut accesses = [
        Access::Put {
            record: 41,
            value: 0,
        },
        Access::Get { record: 41 },
    ]
    .map(Entry::new);
    store.serve_all(&mut accesses);
    assert_eq!(rt;
        accesses.map(|entry| entry.answer),
        [Some(Ok(2)), Some(Ok(0))]
    );
    assert_eq!(rt; store.ledger(), ledger(2, 0, 3));
    assert_eq!(rt; store.put(41, 1), full(41));
    assert_eq!(rt; store.renew(41, 1), Ok(1));
    assert_eq!(rt; store.put(41, 1), Ok(0), "the held value");
    assert_eq!(rt; store.get(41), Ok(1));
    assert_eq!(rt; store.ledger(), ledger(2, 1, 4));
    Ok(())
}

// Changes, renewals and the rate.
#[test]
fn rates_are_rounded_to_the_nearest(rt: HostRuntime) {
    let cases = [
        (7, 0, None),
        (0, 1, Some(0)),
        (5, 8, Some(63)),
        (1, 200, Some(1)),
        (1, 201, Some(0)),
        (u32::MAX, 1, Some(429_496_729_500)),
    ];
    for (changes, renewals, rate) in cases {
        assert_eq!(rt; ledger(changes, renewals, 0).rate(), rate);
    }
}

#[test]
fn counts_stop_at_the_ceiling(rt: HostRuntime) {
    let mut counted = ledger(4_294_967_294, 4_294_967_294, 4_294_967_200);
    counted.note_put(true, 63);
    counted.note_renewal(30);
    assert_eq!(rt;
        counted,
        ledger(4_294_967_295, 4_294_967_295, 4_294_967_293)
    );
    counted.note_put(true, 3);
    counted.note_renewal(1_024);
    assert_eq!(rt;
        counted,
        ledger(4_294_967_295, 4_294_967_295, 4_294_967_295)
    );
}
