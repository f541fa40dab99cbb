// The direct product of two groups: it adds part by part.
// The pair of a and b has the number a * r + b, where r is the order of the second group.
ghost use Rattle.std.specs.Prelude.{◌≡◌};
ghost use Rattle.group.specs.Product.{product, product_size, DirectProduct};
ghost use Rattle.group.specs.Pairs.{product_lawful};

use crate::interface::{Group, MAX_ORDER, UNUSABLE};

#[derive(Clone, Copy, Drop)]
pub struct Product<A, B> {
    pub left: A,
    pub right: B,
}

impl<A: Group, B: Group> Product<A, B> {
    // the group of the pairs of an element of `left` and one of `right`
    pub fn new(left: A, right: B) -> Self
        ensures holds { (result.left ≡ left) × (result.right ≡ right) }
        ensures means { DirectProduct (A.Group.meaning left) (B.Group.meaning right) (product (A.Group.meaning result.left) (B.Group.meaning result.right)) }
    {
        Product { left, right }
    }

    // the number of pairs
    fn size(&self) -> u32
        ensures { result ≡ product_size (A.Group.meaning self.now.left) (B.Group.meaning self.now.right) }
    {
        self.left.order() * self.right.order()
    }
}

impl<A: Group, B: Group> Group for Product<A, B> {
    ghost meaning = { λ g. product (A.Group.meaning g.left) (B.Group.meaning g.right) };

    ghost lawful = { λ p. product_lawful (A.Group.lawful p.left) (B.Group.lawful p.right) };

    fn order(&self) -> u32 {
        // An unusable part has order 65 and the other at least 2, so that the size is above 64 too.
        let size = self.size();
        if size <= MAX_ORDER { size } else { UNUSABLE }
    }

    fn sum(&self, a: u32, b: u32) -> u32 {
        if self.has(a) && self.has(b) {
            let r = self.right.order();
            let left = self.left.sum(a / r, b / r);
            let right = self.right.sum(a % r, b % r);
            left * r + right
        } else {
            0
        }
    }

    fn opposite(&self, a: u32) -> u32 {
        if self.has(a) {
            let r = self.right.order();
            let left = self.left.opposite(a / r);
            let right = self.right.opposite(a % r);
            left * r + right
        } else {
            0
        }
    }
}
