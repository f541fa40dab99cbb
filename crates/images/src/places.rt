// Where the parts of an image lie, by its layout.
// The bounds of a layout keep every place far below the largest number.
ghost use Rattle.std.specs.Prelude.{◌≡◌, ◌≤◌};
ghost use Rattle.images.specs.Image.{page_bytes, page_at, size, part_cells};

use crate::format::Format;
use crate::layout::Layout;

impl Layout {
    // The bytes of a page.
    pub fn page_bytes(self) -> usize
        ensures { result ≡ page_bytes self.width }
    {
        self.width.div_ceil(8)
    }

    // The bytes of the whole image.
    pub fn size(self, format: Format) -> usize
        ensures { result ≡ size format self.pages self.width }
    {
        self.page_at(format, self.pages)
    }

    // Where a page begins, or past the last where the pages end.
    pub(crate) fn page_at(self, format: Format, page: usize) -> usize
        requires { page ≤ self.pages }
        ensures { result ≡ page_at format self.pages self.width page }
    {
        3 + format.count_bytes() * self.pages + page * self.page_bytes()
    }

    // This layout where the bytes suffice, and else no pages and no width, which a part has over bytes that its check
    // refuses. So it is a layout too, and no `Option`.
    pub(crate) fn over(self, format: Format, image: &[u8]) -> Layout
        ensures pages { result.pages ≡ (part_cells format self image.now).pages }
        ensures width { result.width ≡ (part_cells format self image.now).width }
    {
        if self.size(format) <= image.len() {
            self
        } else {
            Layout::NONE
        }
    }
}
