// The trait of the finite abelian groups whose elements are zero_outside from 0.
// A group may be unusable: its order is then 65, and its sums and opposites are 0.
ghost use Rattle.std.specs.Prelude.{◌≡◌};
ghost use Rattle.group.specs.Group.{Group as GroupMeaning, Lawful, has, is_usable, step};

// the largest order of a usable group
pub const MAX_ORDER: u32 = 64;

// The order of an unusable group, which is a number by the rules, and so no `Option`.
pub const UNUSABLE: u32 = 65;

// Each kind asks by `has` itself whether it is given elements. One check for all kinds would call methods that take
// elements alone, or else the integers divide by 0, and no public method here has a precondition.
pub trait Group {
    // the order, the sum of each two elements and the opposite of each
    ghost meaning: { Self → GroupMeaning };

    // the number of elements, or UNUSABLE
    fn order(&self) -> u32
        ensures { result ≡ (meaning self.now).order };

    // 0 where a or b is no element
    fn sum(&self, a: u32, b: u32) -> u32
        ensures { result ≡ (meaning self.now).sum a b };

    // the element that added to a gives 0; 0 where a is no element
    fn opposite(&self, a: u32) -> u32
        ensures { result ≡ (meaning self.now).opposite a };

    fn is_usable(&self) -> bool
        ensures { result ≡ is_usable (meaning self.now) }
    {
        self.order() != UNUSABLE
    }

    // whether a is an element; an unusable group has none
    fn has(&self, a: u32) -> bool
        ensures { result ≡ has (meaning self.now) a }
    {
        self.is_usable() && a < self.order()
    }

    // the difference, which added to `from` gives `to`
    fn step(&self, from: u32, to: u32) -> u32
        ensures { result ≡ step (meaning self.now) from to }
    {
        self.sum(to, self.opposite(from))
    }

    ghost lawful: { (g : Self) → Lawful (meaning g) };
}
