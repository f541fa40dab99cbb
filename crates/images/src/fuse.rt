// The fuse bank: pages of cells in a fuse image that is lent to it.
// A set cell is a 1 bit, and nothing is ever erased.
ghost use Rattle.images.specs.declared.format.Format.TheVariants.{Fuse as FuseFormat};

use crate::format::Format;
use crate::part::{Kind, Part};

#[derive(Clone, Copy)]
pub struct Fuse;

impl Kind for Fuse {
    ghost FORMAT = { FuseFormat };

    const FORMAT: Format = Format::Fuse;
}

pub type FuseBank<'a> = Part<'a, Fuse>;
