//! Reading the listing of a flash image, or why it is refused.
//! It goes over the image by the looks and wear questions of the flash part alone, and needs no memory.
ghost use Rattle.std.specs.Prelude.{◌≡◌, ◌<◌, length};
ghost use Rattle.cells.specs.Sets.{size_below};
ghost use Rattle.listing.specs.Listing.{page_report, page_reports, Lists};

use crate::report::PageReport;
use cells::array::{CellArray, Erasable};
use images::fault::ImageFault;
use images::flash::FlashPart;
use images::format::Format;
use images::layout::{Layout, MAX_PAGES};

/// Reports each page of a flash image, of which any bytes are taken and none is altered. The caller lends a place for
/// every page that an image can have: the first places get the reports, one for each page in order, and those after
/// them stay as they were. The answer is how many pages there are, from 1 to 64, and how many cells a page has, from 1
/// to 1,024. A refused image leaves every place as it was. It is refused by the first that holds, in reading order:
/// 10 where the bytes end early, 11 for the count of pages, 15 for a wear count, 12 for the width, 14 for an unused bit
/// that reads as set, and 13 for bytes after the last page.
pub fn list_flash(
    image: &mut [u8],
    reports: &mut [PageReport; MAX_PAGES],
) -> Result<Layout, ImageFault>
    ensures lists { Lists image.old reports.old reports.new result }
    ensures same { image.new ≡ image.old }
{
    let layout = Format::Flash.check(image)?;
    let part = FlashPart::over(image);
    report_pages(&part, &mut reports[..layout.pages]);
    Ok(layout)
}

// A report of each page into its place.
fn report_pages<A: Erasable>(array: &A, reports: &mut [PageReport])
    requires { length reports.old ≡ (A.cells array.now).pages }
    ensures { reports.new ≡ page_reports (A.cells array.now) }
{
    for (page, place) in reports.iter_mut().enumerate() {
        *place = report(array, page);
    }
}

fn report<A: Erasable>(array: &A, page: usize) -> PageReport
    requires { page < (A.cells array.now).pages }
    ensures { result ≡ page_report (A.cells array.now) page }
{
    let (wear, _) = array.wear(page).unwrap();
    let set = count_set(array, page);
    PageReport { wear, set }
}

// How many cells of a page are set.
fn count_set<A: CellArray>(array: &A, page: usize) -> usize
    requires { page < (A.cells array.now).pages }
    ensures { let m = A.cells array.now in result ≡ size_below (m.set page) m.width }
{
    (0..array.width())
        .filter(|cell| array.is_set(page, *cell))
        .count()
}
