//! Faults of a script: what a line, a making or a call was refused for, whole, with the line and the column.
//! Each cause has the number and the place letter of the table of refusals.
ghost use Rattle.std.specs.Prelude.{◌≡◌};
ghost use Rattle.script.specs.declared.fault.Cause.TheVariants.{Line, Image, Making, Store};
ghost use Rattle.script.specs.Faults.{cause_number, cause_letter};
ghost use Rattle.script.specs.Replies.{fault_shown};
ghost use Rattle.script.specs.Execution.{fault_of_call, place_of, place_of_get};
ghost use Rattle.script.specs.Refusals.{at_the_start, line_refused, image_refused, making_refused};

use crate::output::{Output, number};
use calls::fault::StoreFault;
use commands::fault::{LineFault, Refusal};
use commands::head::Heading;
use commands::word::Number;
use images::fault::ImageFault;
use store::making::MakingFault;

/// What a script, or a line of it, was refused for.
#[derive(Clone, Copy, PartialEq, Debug)]
pub enum Cause {
    /// The form of a line, or of the script.
    Line(LineFault),
    /// Counts of a head that no image can have.
    Image(ImageFault),
    /// A store that cannot be made.
    Making(MakingFault),
    /// A call of the store, or a step of its array.
    Store(StoreFault),
}

impl Cause {
    /// Its number in the table of refusals.
    // By cases, since each holds another fault, whose own number it is.
    pub fn number(self) -> u32
        ensures { result ≡ cause_number self }
    {
        match self {
            Cause::Line(fault) => fault.number(),
            Cause::Image(fault) => fault.number(),
            Cause::Making(fault) => fault.number(),
            Cause::Store(fault) => fault.number(),
        }
    }

    /// The letter of the place of the check: T, I, M, S or D, as the table of refusals has it.
    pub fn letter(self) -> &'static str
        ensures { result.now ≡ cause_letter self }
    {
        match self {
            Cause::Line(_) => "T",
            Cause::Image(_) => "I",
            Cause::Making(_) => "M",
            Cause::Store(StoreFault::Device { .. }) => "D",
            Cause::Store(_) => "S",
        }
    }
}

/// A refusal, with its place in the script. Lines and columns are counted from 1.
#[derive(Clone, Copy, PartialEq, Debug)]
pub struct ScriptFault {
    /// What was refused, whole.
    pub cause: Cause,
    /// The line that was refused; 1 for the script as a whole.
    pub line: usize,
    /// Where in the line: 81 for a line that is too long, the place after its end for a wrong number of words, the start of
    /// the word that the refusal is about, or else 1.
    pub column: usize,
}

impl ScriptFault {
    // Prints its number, the letter of its place, its line and its column.
    pub(crate) fn print<O: Output>(&self, out: &mut O)
        ensures { O.takes out.old (fault_shown self.now) out.new }
    {
        number(out, self.cause.number());
        out.text(b" ");
        out.text(self.cause.letter().as_bytes());
        out.text(b" ");
        number(out, self.line);
        out.text(b" ");
        number(out, self.column);
    }

    // A refusal of the script as a whole, at line 1 and column 1.
    pub(crate) fn at_the_start(fault: LineFault) -> ScriptFault
        ensures { result ≡ at_the_start fault }
    {
        ScriptFault {
            cause: Cause::Line(fault),
            line: 1,
            column: 1,
        }
    }
}

// A refused line, with its number.
impl From<(usize, Refusal)> for ScriptFault {
    ghost from_gives = { λ e r. r ≡ line_refused e.0 e.1 };

    fn from(refusal: (usize, Refusal)) -> ScriptFault {
        let (line, Refusal { fault, column }) = refusal;
        ScriptFault {
            cause: Cause::Line(fault),
            line,
            column,
        }
    }
}

/// Where an order stands: its line, and the columns of its words.
#[derive(Clone, Copy)]
pub struct OrderPlace {
    /// Its line.
    pub line: usize,
    /// The column of the word for the record.
    pub record: usize,
    /// The column of the word for the value.
    pub value: usize,
}

impl OrderPlace {
    pub(crate) fn of(line: usize, record: Number, value: Number) -> OrderPlace
        ensures { result ≡ place_of line «record» value }
    {
        OrderPlace {
            line,
            record: record.column,
            value: value.column,
        }
    }

    // Where a get stands. It has no value and is never refused for one, so 1 is a column that nothing names.
    pub(crate) fn of_get(line: usize, record: Number) -> OrderPlace
        ensures { result ≡ place_of_get line «record» }
    {
        OrderPlace {
            line,
            record: record.column,
            value: 1,
        }
    }
}

// A refused call, with the place of its order.
impl From<(OrderPlace, StoreFault)> for ScriptFault {
    ghost from_gives = { λ e r. r ≡ fault_of_call e.0 e.1 };

    fn from(refusal: (OrderPlace, StoreFault)) -> ScriptFault {
        let (place, fault) = refusal;
        let column = match fault {
            StoreFault::NoRecord { .. } => place.record,
            StoreFault::NoValue { .. } => place.value,
            _ => 1,
        };
        ScriptFault {
            cause: Cause::Store(fault),
            line: place.line,
            column,
        }
    }
}

// A heading, and the number of its line.
#[derive(Clone, Copy)]
pub(crate) struct HeadPlace {
    pub(crate) line: usize,
    pub(crate) heading: Heading,
}

// Counts that no image can have, named by their words.
impl From<(HeadPlace, ImageFault)> for ScriptFault {
    ghost from_gives = { λ e r. r ≡ image_refused e.0.line e.0.heading e.1 };

    fn from(refusal: (HeadPlace, ImageFault)) -> ScriptFault {
        let (place, fault) = refusal;
        let column = match fault {
            ImageFault::Pages => place.heading.pages.column,
            ImageFault::Width => place.heading.width.column,
            _ => 1,
        };
        ScriptFault {
            cause: Cause::Image(fault),
            line: place.line,
            column,
        }
    }
}

// A making that was refused, by the group or by the cells to a record.
impl From<(HeadPlace, MakingFault)> for ScriptFault {
    ghost from_gives = { λ e r. r ≡ making_refused e.0.line e.0.heading e.1 };

    fn from(refusal: (HeadPlace, MakingFault)) -> ScriptFault {
        let (place, fault) = refusal;
        let column = match fault {
            MakingFault::Unusable => 3,
            MakingFault::Cells | MakingFault::Narrow => place.heading.n.column,
        };
        ScriptFault {
            cause: Cause::Making(fault),
            line: place.line,
            column,
        }
    }
}
