// The beginning of a line: its length, its first byte, and the space after that.
// Which letters are commands is for the readers of heads and of commands to say.
ghost use Rattle.commands.specs.Orders.{OpensLine};

use crate::fault::{LineFault, Refusal};
use crate::word::Words;

// the most bytes of a line
const MAX_LINE: usize = 80;

// A line's first byte, as a letter, and its words.
#[derive(Drop)]
pub(crate) struct Opening<'a> {
    pub(crate) letter: char,
    pub(crate) words: Words<'a>,
}

impl<'a> Opening<'a> {
    pub(crate) fn of(line: &'a [u8]) -> Result<Opening<'a>, Refusal>
        ensures { OpensLine line.now result }
    {
        if line.len() > MAX_LINE {
            return Err(LineFault::Long.at(MAX_LINE + 1));
        }
        let [letter, rest @ ..] = line else {
            return Err(LineFault::Command.at(1));
        };
        let words = Words::after_command(rest).ok_or(LineFault::Command.at(1))?;
        Ok(Opening {
            letter: char::from(*letter),
            words,
        })
    }
}
