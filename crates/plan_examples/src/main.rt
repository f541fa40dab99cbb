// Plans some of the examples worked by hand: the cells that would take a record from its value to a target.
// Cells count from 0; in these records cell i has the label i + 1.
#![tactic(auto)]

use coset::cellset::{CellSet, MAX_CELLS};
use coset::code::Code;
use group::integers::Integers;
use group::interface::Group;
use group::vectors::Vectors;
use std::io;

// A code with its name.
#[derive(Drop)]
struct Named<'a, G> {
    name: &'a str,
    code: Code<G>,
}

impl<G: Group> Named<'_, G> {
    // Plans for a record with these cells set, and prints what it would set. The words here and below are this
    // program's own, and each is printed once, so that no `Display` would be shorter.
    fn show(&self, rt: &HostRuntime, set: &[usize], target: u32) -> io::Result<()> {
        // Cell by cell, which is the only way into a set.
        let mut held = CellSet::empty();
        for cell in set {
            held.insert(*cell);
        }
        let value = self.code.label_sum(&held);
        let step = self.code.group.step(value, target);
        print!(rt; "{}: from {value} to {target}, step {step}:", self.name)?;
        match self.code.plan(&held.complement(), step) {
            None => println!(rt; " full"),
            Some(plan) => print_cells(rt, &plan),
        }
    }
}

fn print_cells(rt: &HostRuntime, set: &CellSet) -> io::Result<()> {
    print!(rt; " set")?;
    for cell in (0..MAX_CELLS).filter(|cell| set.contains(*cell)) {
        print!(rt; " {cell}")?;
    }
    println!(rt; "")
}

fn main(rt: HostRuntime) -> io::Result<()> {
    let z7 = Named {
        name: "Z7, 6 cells",
        code: Code::new(Integers::new(7), 6),
    };
    z7.show(&rt, &[], 3)?;
    z7.show(&rt, &[2], 6)?;
    z7.show(&rt, &[3, 4, 5], 0)?;
    z7.show(&rt, &[0, 1, 2, 3, 4, 5], 1)?;
    z7.show(&rt, &[0, 1, 2, 3, 4, 5], 0)?;
    let x2 = Named {
        name: "X2, 3 cells",
        code: Code::new(Vectors::new(2), 3),
    };
    x2.show(&rt, &[0], 0)?;
    let z4 = Named {
        name: "Z4, 1 cell",
        code: Code::new(Integers::new(4), 1),
    };
    z4.show(&rt, &[], 2)?;
    z4.show(&rt, &[], 1)?;
    let z64 = Named {
        name: "Z64, 63 cells",
        code: Code::new(Integers::new(64), 63),
    };
    z64.show(&rt, &[], 63)
}
