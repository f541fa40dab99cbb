// The worked examples of the rules, each as a call on a bench part with some cells of page 0 set.
// There is one plan for each target, so each example leaves one set of cells.
use crate::runs::*;
use calls::call::Call;
use cells::array::CellArray;
use cells::bench::Bench;
use coset::code::Code;
use group::integers::Integers;
use group::interface::Group;
use group::product::Product;
use group::vectors::Vectors;
use std::alloc::Global;
use std::process::Abort;
use std::test::Fail;

// The cells that are set, a call, its answer, and the cells that are set afterwards.
type Example<'a> = (&'a [usize], Call, Answer, &'a [usize]);

// every cell of a record of six
const SIX: &[usize] = &[0, 1, 2, 3, 4, 5];

// The parameters are those of `check_calls`: each example makes a store of its own.
fn check_examples<G: Group + Copy + Drop>(
    rt: &impl Abort,
    heap: Global,
    code: Code<G>,
    examples: &[Example],
) -> Result<(), Fail> {
    for (before, call, answer, after) in examples {
        let mut bench = Bench::new();
        mark_all(&mut bench, 0, before)?;
        check_calls(rt, heap, code, &mut bench, &[(*call, *answer)])?;
        assert_eq!(rt; set_cells(heap, &bench, 0)?.as_slice(), *after, "page 0");
        assert_eq!(rt;
            set_cells(heap, &bench, 1)?.as_slice(),
            [].as_slice(),
            "page 1"
        );
    }
    Ok(())
}

#[test]
fn integers_modulo_seven(rt: HostRuntime) -> Result<(), Fail> {
    check_examples(
        &rt,
        rt.alloc(),
        Code::new(Integers::new(7), 6),
        &[
            (&[0, 4], get(0), Ok(6), &[0, 4]),
            (&[], put(0, 3), Ok(1), &[2]),
            (&[2], put(0, 3), Ok(0), &[2]),
            (&[2], put(0, 6), Ok(2), &[0, 1, 2]),
            (&[3, 4, 5], put(0, 0), Ok(3), SIX),
            (SIX, get(0), Ok(0), SIX),
            (SIX, put(0, 1), full(0), SIX),
            (SIX, put(0, 0), Ok(0), SIX),
            (&[2], put(0, 7), no_value(0), &[2]),
            (&[2], renew(0, 3), fits(0), &[2]),
        ],
    )
}

#[test]
fn binary_vectors_and_a_product(rt: HostRuntime) -> Result<(), Fail> {
    check_examples(
        &rt,
        rt.alloc(),
        Code::new(Vectors::new(2), 3),
        &[
            (&[0], put(0, 0), Ok(2), &[0, 1, 2]),
            (&[0, 1], get(0), Ok(3), &[0, 1]),
            (&[0, 1, 2], get(0), Ok(0), &[0, 1, 2]),
        ],
    )?;
    check_examples(
        &rt,
        rt.alloc(),
        Code::new(Product::new(Integers::new(2), Integers::new(3)), 5),
        &[
            (&[3, 4], get(0), Ok(0), &[3, 4]),
            (&[3], put(0, 0), Ok(1), &[3, 4]),
            (&[4], put(0, 4), Ok(1), &[1, 4]),
        ],
    )
}

// Modulo 3, five cells have the labels 1, 2, 1, 2, 1.
#[test]
fn labels_start_again_at_one(rt: HostRuntime) -> Result<(), Fail> {
    check_examples(
        &rt,
        rt.alloc(),
        Code::new(Integers::new(3), 5),
        &[
            (&[2], get(0), Ok(1), &[2]),
            (&[3], get(0), Ok(2), &[3]),
            (&[0, 2, 4], get(0), Ok(0), &[0, 2, 4]),
            (&[0, 1, 4], put(0, 2), Ok(1), &[0, 1, 2, 4]),
            (&[1, 3], put(0, 0), Ok(2), &[0, 1, 2, 3]),
            (&[0, 1, 2, 3, 4], put(0, 2), full(0), &[0, 1, 2, 3, 4]),
        ],
    )
}

// Modulo 4, the only cell has the label 1. The last renewal erases the page and sets no cell.
#[test]
fn one_cell_modulo_four(rt: HostRuntime) -> Result<(), Fail> {
    let mut bench = Bench::new();
    let counted = check_calls(
        &rt,
        rt.alloc(),
        Code::new(Integers::new(4), 1),
        &mut bench,
        &[
            (put(0, 2), full(0)),
            (renew(0, 2), unreached(0)),
            (put(0, 1), Ok(1)),
            (get(0), Ok(1)),
            (put(0, 0), full(0)),
            (renew(0, 0), Ok(0)),
            (get(0), Ok(0)),
        ],
    )?;
    assert_eq!(rt; counted, ledger(1, 1, 1));
    check_page(&rt, rt.alloc(), &bench, 0, &[], 1)
}

// Modulo 64 with 63 cells: one record to a page, and cell 63 of the page belongs to none. All labels sum to 2,016,
// which is 32 modulo 64.
#[test]
fn the_widest_record(rt: HostRuntime) -> Result<(), Fail> {
    let mut bench = Bench::new();
    // A loop, which a refused mark ends by `?`; a chain would carry the array into a closure.
    for cell in 0..64 {
        bench.mark(1, cell)?;
    }
    let counted = check_calls(
        &rt,
        rt.alloc(),
        Code::new(Integers::new(64), 63),
        &mut bench,
        &[
            (put(0, 63), Ok(1)),
            (get(1), Ok(32)),
            (put(1, 0), full(1)),
            (renew(1, 1), Ok(1)),
            (put(1, 64), no_value(1)),
            (get(2), no_record(2)),
        ],
    )?;
    assert_eq!(rt; counted, ledger(1, 1, 2));
    check_page(&rt, rt.alloc(), &bench, 0, &[62], 0)?;
    check_page(&rt, rt.alloc(), &bench, 1, &[0], 1)
}
