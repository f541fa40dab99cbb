// Examples of the planner: small codes with some of their cells set,
// and parameters at which nothing is reached.
use crate::cellset::CellSet;
use crate::code::Code;
use group::integers::Integers;
use group::vectors::Vectors;

// Cell by cell, which is the only way into a set.
fn set_of(cells: &[usize]) -> CellSet {
    let mut set = CellSet::empty();
    for cell in cells {
        set.insert(*cell);
    }
    set
}

// The plan with these cells and no others.
fn plan_of(cells: &[usize]) -> Option<CellSet> {
    Some(set_of(cells))
}

#[test]
fn fewest_free_cells(rt: HostRuntime) {
    let seven = Code::new(Integers::new(7), 6);
    let cases: [(&[usize], u32, &[usize]); 3] = [
        (&[0, 1, 2, 3, 4, 5], 3, &[2]),
        (&[0, 1, 3, 4, 5], 3, &[0, 1]),
        (&[0, 1, 2], 6, &[0, 1, 2]),
    ];
    for (free, step, cells) in cases {
        assert_eq!(rt; seven.plan(&set_of(free), step), plan_of(cells));
    }
    assert_eq!(rt;
        Code::new(Vectors::new(2), 3).plan(&set_of(&[1, 2]), 1),
        plan_of(&[1, 2])
    );
}

#[test]
fn nothing_free(rt: HostRuntime) {
    let seven = Code::new(Integers::new(7), 6);
    assert_eq!(rt; seven.plan(&CellSet::empty(), 0), plan_of(&[]));
    assert!(rt; seven.plan(&CellSet::empty(), 1).is_none());
}

#[test]
fn out_of_reach(rt: HostRuntime) {
    let all = set_of(&[0, 1, 2, 3, 4, 5]);
    assert!(rt; Code::new(Integers::new(4), 1).plan(&all, 2).is_none());
    assert!(rt; Code::new(Integers::new(7), 0).plan(&all, 1).is_none());
    assert!(rt; Code::new(Integers::new(7), 6).plan(&all, 7).is_none());
    assert!(rt; Code::new(Integers::new(65), 6).plan(&all, 1).is_none());
}
