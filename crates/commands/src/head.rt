// The head of a script: the group, the cells to a record, the pages and the width.
// It is read as the words of its line, and then as what these words spell.
ghost use Rattle.commands.specs.Orders.{head_word_count, form_rows, head_rows, HasHead, IsHeading, ReadsStep};

use crate::fault::{LineFault, Refusal};
use crate::group_word::GroupWord;
use crate::opening::Opening;
use crate::word::{Number, Word};

#[derive(Clone, Copy)]
pub struct Head<G, T> {
    pub group: G,
    pub n: T,
    pub pages: T,
    pub width: T,
}

impl<'a> Head<Word<'a>, Word<'a>> {
    // The words of a head, which are parts of the script. No other command may stand in its place.
    pub fn in_words(line: &'a [u8]) -> Result<Head<Word<'a>, Word<'a>>, Refusal>
        ensures { ReadsStep (form_rows head_word_count line.now) (HasHead line.now) result }
    {
        let Opening { letter, words } = Opening::of(line)?;
        let 'H' = letter else {
            return Err(LineFault::Command.at(1));
        };
        words.four()
    }
}

// What a head orders: its group, and its numbers.
pub type Heading = Head<GroupWord, Number>;

impl Head<GroupWord, Number> {
    // A line that is a heading is that heading written out, byte for byte.
    pub fn read(line: &[u8]) -> Result<Heading, Refusal>
        ensures { ReadsStep (head_rows line.now) (IsHeading line.now) result }
    {
        let head = Head::in_words(line)?;
        Ok(Head {
            group: head.group.group()?,
            n: head.n.number()?,
            pages: head.pages.number()?,
            width: head.width.number()?,
        })
    }
}
