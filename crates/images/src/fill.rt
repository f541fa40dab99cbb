//! A part of an image filled with one byte.
//! By itself, so that what the library says of `fill` need not be said of a part of an image.
ghost use Rattle.std.specs.Prelude.{◌≡◌, length, replicate};

pub(crate) fn fill(part: &mut [u8], byte: u8)
    ensures { part.new ≡ replicate (length part.old) byte }
{
    part.fill(byte);
}
