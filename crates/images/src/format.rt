// The two image formats, of a fuse bank and of a flash part, and how one byte's bits stand for cells.
// They differ in the bit that stands for a set cell and in the wear counts, which only flash has.
ghost use Rattle.std.specs.Prelude.{◌≡◌, ◌<◌};
ghost use Rattle.images.specs.Image.{count_bytes, reads, SetsBit};

#[derive(Clone, Copy, PartialEq, Debug)]
pub enum Format {
    Fuse,
    Flash,
}

// Here and in the check the formats differ by cases, since a format is data.
impl Format {
    // The bytes of a page's wear count.
    pub fn count_bytes(self) -> usize
        ensures { result ≡ count_bytes self }
    {
        match self {
            Format::Fuse => 0,
            Format::Flash => 4,
        }
    }

    // Whether bit k of a byte reads as a set cell.
    pub(crate) fn reads(self, byte: u8, k: usize) -> bool
        requires { k < 8 }
        ensures { result ≡ reads self byte k }
    {
        let bit = (byte >> k) % 2;
        match self {
            Format::Fuse => bit == 1,
            Format::Flash => bit == 0,
        }
    }

    // The byte with bit k made to read as set, and every other bit as it was.
    pub(crate) fn with_set(self, byte: u8, k: usize) -> u8
        requires { k < 8 }
        ensures { SetsBit self k byte result }
    {
        let mask = 1u8 << k;
        match self {
            Format::Fuse => byte | mask,
            Format::Flash => byte & !mask,
        }
    }
}
