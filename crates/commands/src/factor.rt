// The factors of a group word: integers modulo a number, or vectors of so many bits.
// Any parameter will do; one out of range stands for an unusable group.
ghost use Rattle.commands.specs.Groups.{factor_group, ReadsFactor};
ghost use Rattle.commands.specs.Lawful.{factor_lawful};

use group::integers::Integers;
use group::interface::Group;
use group::vectors::Vectors;
use scan::number::read_number;

#[derive(Clone, Copy)]
pub enum Factor {
    Integers(Integers),
    Vectors(Vectors),
}

impl Factor {
    // The factor that the bytes spell: a letter and a number.
    pub fn read(bytes: &[u8]) -> Option<Factor>
        ensures { ReadsFactor bytes.now result }
    {
        let [letter, digits @ ..] = bytes else {
            return None;
        };
        let number = read_number(digits)?;
        match char::from(*letter) {
            'Z' => Some(Factor::Integers(Integers::new(number))),
            'X' => Some(Factor::Vectors(Vectors::new(number))),
            _ => None,
        }
    }
}

// The kinds are closed by the form of a group word, so a match picks the group, and no `dyn`. One enum over any two
// groups would serve for group words too, and lose the names of the kinds.
impl Group for Factor {
    ghost meaning = { factor_group };

    ghost lawful = { λ f. factor_lawful f };

    fn order(&self) -> u32 {
        match self {
            Factor::Integers(group) => group.order(),
            Factor::Vectors(group) => group.order(),
        }
    }

    fn sum(&self, a: u32, b: u32) -> u32 {
        match self {
            Factor::Integers(group) => group.sum(a, b),
            Factor::Vectors(group) => group.sum(a, b),
        }
    }

    fn opposite(&self, a: u32) -> u32 {
        match self {
            Factor::Integers(group) => group.opposite(a),
            Factor::Vectors(group) => group.opposite(a),
        }
    }
}
