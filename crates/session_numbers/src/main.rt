//! Keeps session numbers modulo 7 in records of six cells, on the bench part and on a flash image.
//! It prints what each call of a list did, what the store counted, and the wear of each page.
#![tactic(auto)]

mod lists;

use crate::lists::{UNTIL_WORN, WITH_A_NEIGHBOUR};
use calls::call::{Call, Entry};
use calls::ledger::Ledger;
use cells::array::{CellArray, Erasable};
use cells::bench::Bench;
use coset::code::Code;
use group::integers::Integers;
use images::flash::{FlashPart, MAX_IMAGE};
use images::fresh::write_fresh;
use std::io;
use store::run::serve_calls;

fn main(rt: HostRuntime) -> io::Result<()> {
    println!(rt; "bench part")?;
    let mut bench = Bench::new();
    show_run(&rt, &mut bench, &mut UNTIL_WORN.map(Entry::new))?;
    println!(rt; "flash image of one page of 12 cells")?;
    let mut image = [0; MAX_IMAGE];
    // Counts within the bounds are not refused, as the contract of the call says.
    let size = write_fresh(&mut image, 1, 12).unwrap();
    let mut flash = FlashPart::over(&mut image[..size]);
    show_run(&rt, &mut flash, &mut WITH_A_NEIGHBOUR.map(Entry::new))
}

// Makes a store over the array, serves the calls on it, and prints what they did.
fn show_run<A: Erasable>(
    rt: &HostRuntime,
    array: &mut A,
    entries: &mut [Entry<Call>],
) -> io::Result<()> {
    let code = Code::new(Integers::new(7), 6);
    let ledger = serve_calls(code, array, entries);
    for entry in entries.iter() {
        show_entry(rt, entry)?;
    }
    show_ledger(rt, &ledger)?;
    show_wear(rt, array)
}

// Here and below each value is printed at one place, in words of this program: a `Display` would be no shorter.
fn show_wear<A: Erasable>(rt: &HostRuntime, array: &A) -> io::Result<()> {
    // An array has no pages to go over, but answers by the number of one.
    for page in 0..array.pages() {
        if let Ok((wear, limit)) = array.wear(page) {
            println!(rt; "page {page}: wear {wear} of {limit}")?;
        }
    }
    Ok(())
}

fn show_entry(rt: &HostRuntime, entry: &Entry<Call>) -> io::Result<()> {
    let what = match entry.call {
        Call::Get { record } => {
            print!(rt; "get {record}: ")?;
            "value"
        }
        Call::Put { record, value } => {
            print!(rt; "put {record} {value}: ")?;
            "cells set"
        }
        Call::Renew { record, value } => {
            print!(rt; "renew {record} {value}: ")?;
            "cells set"
        }
    };
    match entry.answer {
        Some(Ok(count)) => println!(rt; "{what} {count}"),
        Some(Err(fault)) => println!(rt; "refused {}", fault.number()),
        None => println!(rt; "no answer"),
    }
}

fn show_ledger(rt: &HostRuntime, ledger: &Ledger) -> io::Result<()> {
    print!(rt;
        "changes {}, renewals {}, cells set {}, ",
        ledger.changes, ledger.renewals, ledger.marked
    )?;
    match ledger.rate() {
        Some(rate) => println!(rt; "changes to a hundred renewals {rate}"),
        None => println!(rt; "no renewals"),
    }
}
