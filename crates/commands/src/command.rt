// The commands of the lines after the head, with their words or with their numbers.
// A line's letter says which command it is and how many words it takes.
ghost use Rattle.commands.specs.Orders.{command_word_count, form_rows, line_rows, HasCommand, IsOrder, ReadsStep};

use crate::fault::{LineFault, Refusal};
use crate::opening::Opening;
use crate::word::{Number, Word};

#[derive(Clone, Copy)]
pub enum Command<T> {
    Put { record: T, value: T },
    Renew { record: T, value: T },
    // a put, and a renewal where the put is full
    Save { record: T, value: T },
    Get { record: T },
    Ledger,
}

impl<'a> Command<Word<'a>> {
    // The command of a line with its words, which are parts of the script. By cases, since a letter is data.
    pub fn in_words(line: &'a [u8]) -> Result<Command<Word<'a>>, Refusal>
        ensures { ReadsStep (form_rows command_word_count line.now) (HasCommand line.now) result }
    {
        let Opening { letter, words } = Opening::of(line)?;
        match letter {
            'P' => words
                .two()
                .map(|(record, value)| Command::Put { record, value }),
            'R' => words
                .two()
                .map(|(record, value)| Command::Renew { record, value }),
            'S' => words
                .two()
                .map(|(record, value)| Command::Save { record, value }),
            'G' => words.one().map(|record| Command::Get { record }),
            'L' => words.none().map(|()| Command::Ledger),
            _ => Err(LineFault::Command.at(1)),
        }
    }
}

// What a line after the head orders: its command, with its numbers.
pub type Order = Command<Number>;

impl Command<Number> {
    // A line that is an order is that order written out, byte for byte. By cases, since each has words of its own.
    pub fn read(line: &[u8]) -> Result<Order, Refusal>
        ensures { ReadsStep (line_rows line.now) (IsOrder line.now) result }
    {
        Ok(match Command::in_words(line)? {
            Command::Put { record, value } => Command::Put {
                record: record.number()?,
                value: value.number()?,
            },
            Command::Renew { record, value } => Command::Renew {
                record: record.number()?,
                value: value.number()?,
            },
            Command::Save { record, value } => Command::Save {
                record: record.number()?,
                value: value.number()?,
            },
            Command::Get { record } => Command::Get {
                record: record.number()?,
            },
            Command::Ledger => Command::Ledger,
        })
    }
}
