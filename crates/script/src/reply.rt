//! Replies: what a script prints.
//! A reply is one line of text, which is printed field by field, so that no memory is needed.
ghost use Rattle.std.specs.Prelude.{◌++◌, codes};
ghost use Rattle.script.specs.declared.reply.Reply.TheVariants.{Counted, Refused};
ghost use Rattle.script.specs.Replies.{shown, rate_shown};

use crate::fault::ScriptFault;
use crate::output::{Output, number};
use calls::ledger::Ledger;
use itoa::Integer;

/// What is printed of the head, or of a line after it.
#[derive(Clone, Copy)]
pub enum Reply {
    /// The records of the store that the head made.
    Made { records: usize },
    /// The cells that a put marked.
    Wrote { cells: u32 },
    /// The cells that a renewal marked.
    Renewed { cells: u32 },
    /// The value of a record.
    Holds { value: u32 },
    /// What the store has counted.
    Counted { ledger: Ledger },
    /// Why the line, or the whole script, is refused.
    Refused { fault: ScriptFault },
}

impl Reply {
    /// Prints the reply as a line: its letter, its fields with one space before each, and byte 10.
    pub fn print<O: Output>(&self, out: &mut O)
        ensures { O.takes out.old (shown self.now) out.new }
    {
        match self {
            Reply::Made { records } => print_number(out, b"M ", *records),
            Reply::Wrote { cells } => print_number(out, b"W ", *cells),
            Reply::Renewed { cells } => print_number(out, b"E ", *cells),
            Reply::Holds { value } => print_number(out, b"V ", *value),
            Reply::Counted { ledger } => print_ledger(out, ledger),
            Reply::Refused { fault } => print_refusal(out, fault),
        }
    }
}

// A line of one number.
fn print_number<O: Output, I: Integer>(out: &mut O, letter: &[u8], field: I)
    ensures { O.takes out.old (letter.now ++ (I.text field ++ codes "\n")) out.new }
{
    out.text(letter);
    number(out, field);
    out.text(b"\n");
}

fn print_ledger<O: Output>(out: &mut O, ledger: &Ledger)
    ensures { O.takes out.old (shown (Counted ledger.now)) out.new }
{
    out.text(b"N ");
    number(out, ledger.changes);
    out.text(b" ");
    number(out, ledger.renewals);
    out.text(b" ");
    number(out, ledger.marked);
    out.text(b" ");
    print_rate(out, ledger);
    out.text(b"\n");
}

fn print_rate<O: Output>(out: &mut O, ledger: &Ledger)
    ensures { O.takes out.old (rate_shown ledger.now) out.new }
{
    match ledger.rate() {
        Some(rate) => number(out, rate),
        None => out.text(b"-"),
    }
}

fn print_refusal<O: Output>(out: &mut O, fault: &ScriptFault)
    ensures { O.takes out.old (shown (Refused fault.now)) out.new }
{
    out.text(b"X ");
    fault.print(out);
    out.text(b"\n");
}
