// Numbers written in decimal: one to nine digits, and no leading zero but in "0" itself.
// Any other word is no number.
ghost use Rattle.std.specs.Prelude.{◌≤◌, length};
ghost use Rattle.scan.specs.Numbers.{Reads, ReadsDigits};

// the most digits that a number has
const MAX_DIGITS: usize = 9;

// The number that a word spells, or none.
pub fn read_number(word: &[u8]) -> Option<u32>
    ensures { Reads word.now result }
{
    if word.len() > MAX_DIGITS {
        return None;
    }
    match word {
        [] | [b'0', _, ..] => None,
        digits => read_digits(digits),
    }
}

// The number that digits write, or none where a byte is no digit. A loop, by whose invariant nothing overflows; the
// closure of a fold would not know it.
fn read_digits(digits: &[u8]) -> Option<u32>
    requires { length digits.now ≤ 9 }
    ensures { ReadsDigits digits.now result }
{
    let mut number: u32 = 0;
    for digit in digits {
        let b'0'..=b'9' = *digit else {
            return None;
        };
        number = 10 * number + u32::from(*digit - b'0');
    }
    Some(number)
}
