// Group words: one factor, or the product of two that are joined by a full stop.
// A group word is a group itself.
ghost use Rattle.commands.specs.Groups.{word_group, ReadsGroup};
ghost use Rattle.commands.specs.Lawful.{word_lawful};

use crate::factor::Factor;
use group::interface::Group;
use group::product::Product;
use scan::pieces::Pieces;

#[derive(Clone, Copy)]
pub enum GroupWord {
    One(Factor),
    Two(Product<Factor, Factor>),
}

impl GroupWord {
    // The group that the bytes spell.
    pub fn read(bytes: &[u8]) -> Option<GroupWord>
        ensures { ReadsGroup bytes.now result }
    {
        let mut pieces = Pieces::of(bytes, b'.');
        let first = Factor::read(pieces.next()?.bytes)?;
        match (pieces.next(), pieces.next()) {
            (None, _) => Some(GroupWord::One(first)),
            (Some(piece), None) => {
                let second = Factor::read(piece.bytes)?;
                Some(GroupWord::Two(Product::new(first, second)))
            }
            _ => None,
        }
    }
}

// A match picks the group, as for factors.
impl Group for GroupWord {
    ghost meaning = { word_group };

    ghost lawful = { λ g. word_lawful g };

    fn order(&self) -> u32 {
        match self {
            GroupWord::One(factor) => factor.order(),
            GroupWord::Two(product) => product.order(),
        }
    }

    fn sum(&self, a: u32, b: u32) -> u32 {
        match self {
            GroupWord::One(factor) => factor.sum(a, b),
            GroupWord::Two(product) => product.sum(a, b),
        }
    }

    fn opposite(&self, a: u32) -> u32 {
        match self {
            GroupWord::One(factor) => factor.opposite(a),
            GroupWord::Two(product) => product.opposite(a),
        }
    }
}
