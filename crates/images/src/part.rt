// The part over an image that is lent to it, of either kind: pages of cells in the bytes of the image.
// A mark alters one bit.
ghost use Rattle.std.specs.Prelude.{◌≡◌, [], ◌∷◌};
ghost use Rattle.images.specs.declared.format.Format.{Format};
ghost use Rattle.cells.specs.Device.{Kept, Marks};
ghost use Rattle.cells.specs.Steps.{mark_step};
ghost use Rattle.images.specs.Image.{part_cells, part_bounded};
ghost use Rattle.images.specs.Check.{Accepted, Checks, ReadsAs};
ghost use Rattle.images.specs.Written.{WrittenOut};
ghost use Rattle.images.specs.Bytes.{Finds, StepsBytes};

use crate::fault::ImageFault;
use crate::format::Format;
use crate::layout::Layout;
use cells::array::CellArray;
use cells::fault::DeviceFault;
use std::marker::PhantomData;

// A kind of part: the format of its images.
pub trait Kind {
    ghost FORMAT: { Format };

    const FORMAT: Format;
}

#[derive(Drop)]
pub struct Part<'a, K> {
    pub(crate) image: &'a mut [u8],
    pub(crate) layout: Layout,
    kind: PhantomData<K>,
}

impl<'a, K: Kind> Part<'a, K> {
    // The part over these bytes. Where the check refuses them it has no pages and no width.
    pub fn over(image: &'a mut [u8]) -> Part<'a, K>
        ensures lent { result.image.ghost_name ≡ image.entry.ghost_name }
        ensures bytes { result.image.now ≡ image.old }
        ensures meaning { ReadsAs K.FORMAT image.old result.layout }
        ensures written { WrittenOut K.FORMAT image.old }
    {
        let layout = K::FORMAT.layout_of(image);
        Part {
            image,
            layout,
            kind: PhantomData,
        }
    }

    // What the check says of the bytes.
    pub fn check(&self) -> Result<Layout, ImageFault>
        ensures { Checks K.FORMAT self.now.image.now result }
    {
        K::FORMAT.check(self.image)
    }

    // The byte that holds a cell.
    fn find(&self, page: usize, cell: usize) -> Result<usize, DeviceFault>
        ensures { Finds K.FORMAT self.now.layout self.now.image.now page cell result }
    {
        self.check_cell(page, cell)?;
        Ok(self.layout.page_at(K::FORMAT, page) + cell / 8)
    }
}

impl<K: Kind> CellArray for Part<'_, K> {
    ghost cells = { λ a. part_cells K.FORMAT a.layout a.image.now };

    ghost held = { λ a. a.image.ghost_name ∷ [] };

    // the image is accepted by the check, and the layout is its own
    ghost intact = { λ a. Accepted K.FORMAT a.layout a.image.now };

    ghost steps = { λ a s after. (after.layout ≡ a.layout)
        × StepsBytes K.FORMAT a.layout s a.image.now after.image.now };

    ghost bounded = { λ a. part_bounded K.FORMAT a.layout a.image.now };

    // Each of these two hands its own question on to the layout.
    fn pages(&self) -> usize {
        self.layout.over(K::FORMAT, self.image).pages
    }

    fn width(&self) -> usize {
        self.layout.over(K::FORMAT, self.image).width
    }

    fn look(&self, page: usize, cell: usize) -> Result<bool, DeviceFault> {
        let at = self.find(page, cell)?;
        Ok(K::FORMAT.reads(self.image[at], cell % 8))
    }

    fn mark(&mut self, page: usize, cell: usize) -> Result<(), DeviceFault>
        ensures kept { Kept (λ a. a.image.ghost_name ∷ [])
            (λ a. Accepted K.FORMAT a.layout a.image.now) self.old self.new }
        ensures marks { Marks page cell (part_cells K.FORMAT self.old.layout self.old.image.now)
            (part_cells K.FORMAT self.new.layout self.new.image.now) result }
        ensures step { (self.new.layout ≡ self.old.layout)
            × StepsBytes K.FORMAT self.old.layout (mark_step page cell result)
            self.old.image.now self.new.image.now }
    {
        let at = (*self).find(page, cell)?;
        self.image[at] = K::FORMAT.with_set(self.image[at], cell % 8);
        Ok(())
    }
}
