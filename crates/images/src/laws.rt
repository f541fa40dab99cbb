//! That arrays that agree have the same image, on the contract of a function with no code.
ghost use Rattle.images.specs.OneImage.{WrittenAlike, ImagesAgree};

/// Arrays that agree, in cells and wear counts, are written out as the same bytes. And two images
/// that the check accepts are the same bytes where they are read as arrays that agree: who knows
/// what an image is read as knows each of its bytes.
pub fn same_cells_same_bytes()
    ensures written { WrittenAlike }
    ensures images { ImagesAgree }
{}
