// Faults of the store: their numbers, and how a device's fault gets its record.
// The other tests name the faults, and so lean on this file for the numbers.
use calls::fault::{Locate, StoreFault};
use cells::array::{CellArray, Erasable};
use cells::bench::Bench;
use cells::fault::DeviceFault;
use store::making::MakingFault;

// An erase for a record, as a renewal makes it.
fn erase_for<A: Erasable>(array: &mut A, page: usize, record: usize) -> Result<(), StoreFault> {
    array.erase(page).located_at(record)?;
    Ok(())
}

fn device(record: usize, fault: DeviceFault) -> StoreFault {
    StoreFault::Device { record, fault }
}

#[test]
fn each_fault_has_its_number(rt: HostRuntime) {
    let past = DeviceFault::NoPage {
        page: 2,
        cell: None,
    };
    let cases = [
        (StoreFault::NoRecord { record: 3 }, 40),
        (StoreFault::NoValue { record: 3 }, 41),
        (StoreFault::Full { record: 3 }, 42),
        (StoreFault::Fits { record: 3 }, 43),
        (StoreFault::Unreached { record: 3 }, 44),
        (device(3, past), 20),
        (device(3, DeviceFault::NoCell { page: 0, cell: 64 }), 21),
        (device(3, DeviceFault::Worn { page: 1 }), 22),
    ];
    for (fault, number) in cases {
        assert_eq!(rt; fault.number(), number);
    }
    assert_eq!(rt; MakingFault::Unusable.number(), 30);
    assert_eq!(rt; MakingFault::Cells.number(), 31);
    assert_eq!(rt; MakingFault::Narrow.number(), 32);
}

#[test]
fn a_device_fault_is_kept_whole_with_its_record(rt: HostRuntime) {
    let mut bench = Bench::new();
    // A loop, since each turn asserts something.
    for _ in 0..3 {
        assert_eq!(rt; erase_for(&mut bench, 1, 12), Ok(()));
    }
    let worn = device(12, DeviceFault::Worn { page: 1 });
    assert_eq!(rt; erase_for(&mut bench, 1, 12), Err(worn));
    let past = DeviceFault::NoPage {
        page: 2,
        cell: None,
    };
    assert_eq!(rt; erase_for(&mut bench, 2, 25), Err(device(25, past)));
    let no_cell = DeviceFault::NoCell { page: 0, cell: 64 };
    assert_eq!(rt; bench.look(0, 64).located_at(4), Err((4, no_cell)));
    assert_eq!(rt; bench.look(0, 63).located_at(4), Ok(false));
    assert_eq!(rt; StoreFault::from((4, no_cell)), device(4, no_cell));
}
