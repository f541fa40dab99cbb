// Words: parts of the script's bytes, each with the column of its first byte in its line.
// A line's words are taken one after another, and their number is that of its command.
ghost use Rattle.std.specs.Prelude.{◌≡◌, [], ◌∷◌};
ghost use Rattle.std.specs.Iterator.{item_count};
ghost use Rattle.commands.specs.Words.{word_of, head_words_of, words_left, NextWord, WordsAfter};
ghost use Rattle.commands.specs.Orders.{number_row, group_row, count_row, ReadsNumber, ReadsStep};
ghost use Rattle.commands.specs.Groups.{SpellsGroup};

use crate::fault::{LineFault, Refusal};
use crate::group_word::GroupWord;
use crate::head::Head;
use scan::number::read_number;
use scan::pieces::Pieces;

// the column of the first word: a line begins with its command and a space
const FIRST_COLUMN: usize = 3;

// Its column counts from 1 in its line, where the place of a piece counts from 0 in what was cut.
#[derive(Clone, Copy)]
pub struct Word<'a> {
    pub bytes: &'a [u8],
    pub column: usize,
}

// A number of a line, with the column of its first digit.
#[derive(Clone, Copy)]
pub struct Number {
    pub value: u32,
    pub column: usize,
}

impl Number {
    // Its value as an index. A 32-bit number has no `From` into one; that the cast loses nothing is proved.
    pub fn index(self) -> usize
        ensures { result ≡ self.value }
    {
        self.value as usize
    }
}

impl<'a> Word<'a> {
    // The number that the word spells, with its column.
    pub fn number(self) -> Result<Number, Refusal>
        ensures { ReadsStep (number_row (word_of self.entry) ∷ []) (ReadsNumber self.entry) result }
    {
        let value = read_number(self.bytes).ok_or(LineFault::Word.at(self.column))?;
        Ok(Number {
            value,
            column: self.column,
        })
    }

    // The group that the word spells.
    pub fn group(self) -> Result<GroupWord, Refusal>
        ensures { ReadsStep (group_row (word_of self.entry) ∷ []) (λ g. SpellsGroup self.entry.bytes.now g) result }
    {
        GroupWord::read(self.bytes).ok_or(LineFault::Word.at(self.column))
    }
}

// The words of a line that are still to be taken, and the column past the line. They are no one type with the lines of
// a script: a word has a column, and so has the end of its line; a line has a number, and empty lines are passed over.
#[derive(Drop)]
pub(crate) struct Words<'a> {
    pieces: Pieces<'a>,
    past: usize,
}

impl<'a> Words<'a> {
    // The words of what follows a command, or none where a byte follows it that is no space.
    pub(crate) fn after_command(rest: &'a [u8]) -> Option<Words<'a>>
        ensures { WordsAfter rest.now result }
    {
        let past = rest.len() + 2;
        match rest {
            [] => Some(Words {
                pieces: Pieces::none(b' '),
                past,
            }),
            [b' ', words @ ..] => Some(Words {
                pieces: Pieces::of(words, b' '),
                past,
            }),
            _ => None,
        }
    }

    // That there is no word. Each count has a function of its own: the borrow checker does not cover an array of
    // borrowed words in a result.
    pub(crate) fn none(mut self) -> Result<(), Refusal>
        ensures { ReadsStep (count_row (words_left self.entry) 0 self.entry.past ∷ []) (λ _. words_left self.entry ≡ []) result }
    {
        if self.next().is_some() {
            return Err(LineFault::Count.at(self.past));
        }
        Ok(())
    }

    // The only word.
    pub(crate) fn one(mut self) -> Result<Word<'a>, Refusal>
        ensures { ReadsStep (count_row (words_left self.entry) 1 self.entry.past ∷ []) (λ w. words_left self.entry ≡ word_of w ∷ []) result }
    {
        let word = self.next().ok_or(LineFault::Count.at(self.past))?;
        self.none()?;
        Ok(word)
    }

    // The only two words.
    pub(crate) fn two(mut self) -> Result<(Word<'a>, Word<'a>), Refusal>
        ensures { ReadsStep (count_row (words_left self.entry) 2 self.entry.past ∷ []) (λ ws. words_left self.entry ≡ word_of ws.0 ∷ (word_of ws.1 ∷ [])) result }
    {
        let first = self.next().ok_or(LineFault::Count.at(self.past))?;
        let second = self.one()?;
        Ok((first, second))
    }

    // The only four words.
    pub(crate) fn four(mut self) -> Result<Head<Word<'a>, Word<'a>>, Refusal>
        ensures { ReadsStep (count_row (words_left self.entry) 4 self.entry.past ∷ []) (λ h. words_left self.entry ≡ head_words_of h) result }
    {
        let group = self.next().ok_or(LineFault::Count.at(self.past))?;
        let n = self.next().ok_or(LineFault::Count.at(self.past))?;
        let (pages, width) = self.two()?;
        Ok(Head {
            group,
            n,
            pages,
            width,
        })
    }
}

impl<'a> Iterator for Words<'a> {
    type Item = Word<'a>;

    ghost next_gives = { NextWord };

    ghost remaining = { item_count words_left };

    fn next(&mut self) -> Option<Word<'a>> {
        let piece = self.pieces.next()?;
        Some(Word {
            bytes: piece.bytes,
            column: piece.at + FIRST_COLUMN,
        })
    }
}
