// Why a line, or a whole script, is refused before it makes a call.
// Each fault stands for one number of the table of refusals.
ghost use Rattle.std.specs.Prelude.{◌≡◌};
ghost use Rattle.commands.specs.Faults.{line_number};

#[derive(Clone, Copy, PartialEq, Debug)]
pub enum LineFault {
    // no command that may stand there, or no space after it
    Command,
    // a word that is no number, or no group
    Word,
    // another number of words than the command takes
    Count,
    // more than 80 bytes
    Long,
    // the script has more than 65,535 bytes
    Size,
}

impl LineFault {
    // The number of the table of refusals, by cases, as that table has it.
    pub fn number(self) -> u32
        ensures { result ≡ line_number self }
    {
        match self {
            LineFault::Command => 50,
            LineFault::Word => 51,
            LineFault::Count => 52,
            LineFault::Long => 53,
            LineFault::Size => 54,
        }
    }

    // the refusal of a line for this, at a column
    pub(crate) fn at(self, column: usize) -> Refusal
        ensures { result ≡ record { fault = self; column = column } }
    {
        Refusal {
            fault: self,
            column,
        }
    }
}

// A refused line, with the column that the refusal names.
#[derive(Clone, Copy, PartialEq, Debug)]
pub struct Refusal {
    pub fault: LineFault,
    pub column: usize,
}
