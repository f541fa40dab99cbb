// The number of each fault.
// The other tests name the faults, and so lean on this one for the numbers.
use cells::fault::DeviceFault;
use images::fault::ImageFault;

#[test]
fn each_fault_has_its_number(rt: HostRuntime) {
    let image_faults = [
        (ImageFault::Short, 10),
        (ImageFault::Pages, 11),
        (ImageFault::Width, 12),
        (ImageFault::Trailing, 13),
        (ImageFault::Stray, 14),
        (ImageFault::Wear, 15),
    ];
    for (fault, number) in image_faults {
        assert_eq!(rt; fault.number(), number);
    }
    let no_page = DeviceFault::NoPage {
        page: 2,
        cell: None,
    };
    assert_eq!(rt; no_page.number(), 20);
    assert_eq!(rt; DeviceFault::NoCell { page: 0, cell: 12 }.number(), 21);
    assert_eq!(rt; DeviceFault::Worn { page: 1 }.number(), 22);
}
