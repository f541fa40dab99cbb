// Prints the data sheet of the groups Z2 to Z64 and X1 to X6, a line for each group.
// v is the order, and e the most halves of an element other than 0; h is how many changes per erase are promised, and
// cells the fewest cells to a record for which they are.
#![tactic(auto)]

mod figures;

use crate::figures::Figures;
use group::integers::Integers;
use group::interface::{Group, MAX_ORDER};
use group::vectors::Vectors;
use std::io;

// the most bits of a usable group of vectors
const MAX_BITS: u32 = 6;

fn main(rt: HostRuntime) -> io::Result<()> {
    println!(rt; "group   v   e   h  cells")?;
    print_integers(&rt)?;
    print_vectors(&rt)
}

fn print_integers(rt: &HostRuntime) -> io::Result<()> {
    for modulus in 2..=MAX_ORDER {
        print_line(rt, 'Z', modulus, &Integers::new(modulus))?;
    }
    Ok(())
}

fn print_vectors(rt: &HostRuntime) -> io::Result<()> {
    for bits in 1..=MAX_BITS {
        print_line(rt, 'X', bits, &Vectors::new(bits))?;
    }
    Ok(())
}

// A group is named by the letter of its kind and its parameter. The words are this program's own, and each is printed
// once, so that no `Display` would be shorter.
fn print_line<G: Group>(rt: &HostRuntime, kind: char, parameter: u32, group: &G) -> io::Result<()> {
    print!(rt; "{kind}{parameter:<4} ")?;
    match Figures::of(group) {
        None => println!(rt; "unusable"),
        Some(figures) => println!(rt;
            "{:>3} {:>3} {:>3} {:>6}",
            figures.order, figures.most_halves, figures.changes, figures.cells
        ),
    }
}
