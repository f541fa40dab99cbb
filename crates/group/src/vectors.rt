// The binary vectors of 1 to 6 bits, whose sum is exclusive or.
// Any other number of bits makes an unusable group.
ghost use Rattle.std.specs.Prelude.{◌≡◌};
ghost use Rattle.group.specs.Vectors.{vectors, BinaryVectors};
ghost use Rattle.group.specs.Xor.{vectors_lawful};

use crate::interface::{Group, UNUSABLE};

const MAX_BITS: u32 = 6;

// The order is kept beside the bits: the compiler then sees which numbers are elements without a shift for each.
#[derive(Clone, Copy)]
pub struct Vectors {
    bits: u32,
    order: u32,
    ghost its_order: { order ≡ (vectors bits).order },
}

impl Vectors {
    // the group of the vectors of `bits` bits
    pub fn new(bits: u32) -> Self
        ensures holds { result.bits ≡ bits }
        ensures means { BinaryVectors bits (vectors result.bits) }
    {
        let order = if 1 <= bits && bits <= MAX_BITS {
            1 << bits
        } else {
            UNUSABLE
        };
        Vectors { bits, order }
    }
}

impl Group for Vectors {
    ghost meaning = { λ g. vectors g.bits };

    ghost lawful = { λ g. vectors_lawful g.bits };

    fn order(&self) -> u32 {
        self.order
    }

    fn sum(&self, a: u32, b: u32) -> u32 {
        if self.has(a) && self.has(b) { a ^ b } else { 0 }
    }

    fn opposite(&self, a: u32) -> u32 {
        if self.has(a) { a } else { 0 }
    }
}
