//! Lists the flash image on standard input: its pages, its width, and for each page its wear and how many of its cells
//! are set. Of a refused image it prints the number of the refusal.
#![tactic(auto)]

use arrayvec::ArrayVec;
use images::flash::MAX_IMAGE;
use images::layout::{Layout, MAX_PAGES};
use listing::listing::list_flash;
use listing::report::PageReport;
use std::io;
use std::io::Read;

// How many bytes are read at most: one past the largest image is the last that the check depends on, so that input
// without an end is refused too.
const MOST_READ: usize = MAX_IMAGE + 1;

fn main(rt: HostRuntime) -> io::Result<()> {
    let mut image = ArrayVec::<u8, MOST_READ>::new();
    io::copy(&mut rt.stdin().take(MOST_READ as u64), &mut image)?;
    let mut reports = [PageReport::default(); MAX_PAGES];
    match list_flash(image.as_mut_slice(), &mut reports) {
        Ok(layout) => print_listing(&rt, layout, &reports[..layout.pages]),
        Err(fault) => println!(rt; "refused {}", fault.number()),
    }
}

// The words are this program's own, and each is printed once, so that no `Display` would be shorter.
fn print_listing(rt: &HostRuntime, layout: Layout, reports: &[PageReport]) -> io::Result<()> {
    println!(rt; "pages {}", layout.pages)?;
    println!(rt; "width {}", layout.width)?;
    for (page, report) in reports.iter().enumerate() {
        println!(rt; "page {page}: wear {}, set {}", report.wear, report.set)?;
    }
    Ok(())
}
