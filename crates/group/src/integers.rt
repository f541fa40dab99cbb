// The integers modulo a number from 2 to 64, which is the group's order.
// Any other modulus makes an unusable group.
ghost use Rattle.std.specs.Prelude.{◌≡◌};
ghost use Rattle.group.specs.Integers.{integers, IntegersModulo};
ghost use Rattle.group.specs.Modulo.{integers_lawful};

use crate::interface::{Group, MAX_ORDER, UNUSABLE};

#[derive(Clone, Copy)]
pub struct Integers {
    modulus: u32,
}

impl Integers {
    // the group of the integers modulo `modulus`
    pub fn new(modulus: u32) -> Self
        ensures holds { result.modulus ≡ modulus }
        ensures means { IntegersModulo modulus (integers result.modulus) }
    {
        Integers { modulus }
    }
}

impl Group for Integers {
    ghost meaning = { λ g. integers g.modulus };

    ghost lawful = { λ g. integers_lawful g.modulus };

    fn order(&self) -> u32 {
        if 2 <= self.modulus && self.modulus <= MAX_ORDER {
            self.modulus
        } else {
            UNUSABLE
        }
    }

    fn sum(&self, a: u32, b: u32) -> u32 {
        if self.has(a) && self.has(b) {
            // Less than twice the modulus. A division would take several times as long.
            let sum = a + b;
            if sum < self.modulus {
                sum
            } else {
                sum - self.modulus
            }
        } else {
            0
        }
    }

    fn opposite(&self, a: u32) -> u32 {
        // 0 is its own opposite. A division would take several times as long.
        if self.has(a) && a != 0 {
            self.modulus - a
        } else {
            0
        }
    }
}
