//! The lines of a script that are not empty, one after another, each with its number.
//! Empty lines are passed over, and counted.
ghost use Rattle.std.specs.Prelude.{◌≤◌};

use scan::pieces::Pieces;

#[derive(Clone, Copy)]
pub(crate) struct Line<'a> {
    pub(crate) bytes: &'a [u8],
    pub(crate) number: usize,
}

// What is left of a script, and the number of the last line that was taken.
#[derive(Drop)]
pub(crate) struct Lines<'a> {
    pieces: Pieces<'a>,
    number: usize,
    // a line takes up a place at least
    ghost behind: { number ≤ pieces.at },
}

impl<'a> Lines<'a> {
    ghost use Rattle.std.specs.Prelude.{◌≡◌};
    ghost use Rattle.scan.specs.Pieces.{cut};
    ghost use Rattle.script.specs.Lines.{numbered, lines_left};

    pub(crate) fn of(script: &'a [u8]) -> Lines<'a>
        ensures { lines_left result ≡ numbered 1 (cut 10 script.now) }
    {
        Lines {
            pieces: Pieces::of(script, b'\n'),
            number: 0,
        }
    }
}

impl<'a> Iterator for Lines<'a> {
    ghost use Rattle.std.specs.Iterator.{YieldsFirstBy, item_count};
    ghost use Rattle.script.specs.Lines.{line_of, lines_left};

    type Item = Line<'a>;

    ghost next_gives = { YieldsFirstBy line_of lines_left };

    ghost remaining = { item_count lines_left };

    fn next(&mut self) -> Option<Line<'a>> {
        // No `for`: it would lend the pieces out of the struct, whose fact then no longer holds of itself.
        while let Some(piece) = self.pieces.next() {
            self.number += 1;
            if !piece.bytes.is_empty() {
                return Some(Line {
                    bytes: piece.bytes,
                    number: self.number,
                });
            }
        }
        None
    }
}
