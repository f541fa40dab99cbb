// Bytes cut into pieces at a separator byte, one piece at a time, each with its place.
// There is always at least one piece, and a piece may be empty.
ghost use Rattle.std.specs.Prelude.{◌≡◌, ◌≤◌, ◌^◌, ◌==◌, length};
ghost use Rattle.std.specs.List.{position_or_len};
ghost use Rattle.scan.specs.Rest.{reach};

// A piece, with the place of its first byte in what was cut.
#[derive(Clone, Copy)]
pub struct Piece<'a> {
    pub bytes: &'a [u8],
    pub at: usize,
}

// What is left to cut, which begins at `at`, or nothing once the last piece is taken.
#[derive(Drop)]
pub struct Pieces<'a> {
    rest: Option<&'a [u8]>,
    at: usize,
    separator: u8,
    ghost countable: { reach at rest ≤ 2 ^ 63 },
}

impl<'a> Pieces<'a> {
    ghost use Rattle.std.specs.Prelude.{◌+◌, [], length};
    ghost use Rattle.scan.specs.Pieces.{cut, CutLaw, pieces_left};

    // All the pieces are left.
    pub fn of(bytes: &'a [u8], separator: u8) -> Pieces<'a>
        ensures left { pieces_left result ≡ cut separator bytes.now }
        ensures reach { reach result.at result.rest ≡ length bytes.now + 1 }
        ensures at { result.at ≡ 0 }
        ensures separator { result.separator ≡ separator }
        ensures law { CutLaw }
    {
        Pieces {
            rest: Some(bytes),
            at: 0,
            separator,
        }
    }

    // No piece is left.
    pub fn none(separator: u8) -> Pieces<'a>
        ensures left { pieces_left result ≡ [] }
        ensures reach { reach result.at result.rest ≡ 0 }
        ensures at { result.at ≡ 0 }
        ensures separator { result.separator ≡ separator }
    {
        Pieces {
            rest: None,
            at: 0,
            separator,
        }
    }
}

// The next piece, or none where all are taken.
impl<'a> Iterator for Pieces<'a> {
    ghost use Rattle.std.specs.Iterator.{item_count};
    ghost use Rattle.scan.specs.Pieces.{pieces_left, NextPiece};

    type Item = Piece<'a>;

    ghost next_gives = { NextPiece };

    ghost remaining = { item_count pieces_left };

    fn next(&mut self) -> Option<Piece<'a>> {
        let rest = self.rest?;
        let at = self.at;
        let end = end_of(rest, self.separator);
        self.rest = rest.get(end + 1..);
        self.at = at + end + 1;
        Some(Piece {
            bytes: &rest[..end],
            at,
        })
    }
}

// The end of the first piece.
fn end_of(bytes: &[u8], separator: u8) -> usize
    ensures first { result ≡ position_or_len (λ b. b == separator) bytes.now }
    ensures within { result ≤ length bytes.now }
{
    bytes
        .iter()
        .position(|b| *b == separator)
        .unwrap_or(bytes.len())
}
