// The bench part: two pages of 64 cells, fresh when it is made.
// Each page can be erased three times.
use crate::arrays::{check_erasable_counts, check_page, check_wears_out};
use cells::bench::Bench;
use std::test::Fail;

#[test]
fn a_bench_part_begins_fresh(rt: HostRuntime) {
    let mut bench = Bench::new();
    check_erasable_counts(&rt, &mut bench, 2, 64);
    check_page(&rt, &bench, 0, &[], (0, 3));
    check_page(&rt, &bench, 1, &[], (0, 3));
}

#[test]
fn a_bench_page_is_erased_three_times(rt: HostRuntime) -> Result<(), Fail> {
    check_wears_out(&rt, &mut Bench::new(), 63)
}
