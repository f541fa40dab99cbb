//! Where a script prints: an output takes every text that it is given, one after the other.
//! It cannot refuse a text, so that a script is run to its end whatever becomes of what it prints.
ghost use Rattle.std.specs.Prelude.{ℕ, List, ◌++◌};

use itoa::{Buffer, Integer};

/// An output, which takes the texts of a script.
pub trait Output {
    /// What taking these bytes makes of the output.
    ghost takes: { Self → List ℕ → Self → Type 0 };

    /// Two texts, one after the other, are taken as the text that they are together.
    ghost joins: { (a b c : Self) (xs ys : List ℕ) →
        takes a xs b → takes b ys c → takes a (xs ++ ys) c };

    /// Takes these bytes, after all that it has taken before.
    fn text(&mut self, text: &[u8])
        ensures { takes self.old text.now self.new };
}

// A number, in decimal.
pub(crate) fn number<O: Output, I: Integer>(out: &mut O, number: I)
    ensures { O.takes out.old (I.text number) out.new }
{
    let mut buffer = Buffer::new();
    out.text(buffer.format(number).as_bytes());
}
