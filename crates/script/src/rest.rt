//! The lines after the head, answered one after another by the store that the head made.
//! The first reply is the number of its records; each is printed before the next line is read.
ghost use Rattle.cells.specs.Device.{Kept};
ghost use Rattle.calls.specs.Calls.{state_of};
ghost use Rattle.calls.specs.Ledger.{blank};
ghost use Rattle.calls.specs.declared.ledger.Ledger.{Ledger as Counts};
ghost use Rattle.coset.specs.Codes.{code_of};
ghost use Rattle.script.specs.Execution.{Answered};
ghost use Rattle.script.specs.Lines.{lines_left};
ghost use Rattle.script.specs.Printing.{Replied};
ghost use Rattle.store.specs.Keeps.{Keeps, state};

use crate::answer::answer_line;
use crate::lines::Lines;
use crate::output::Output;
use crate::reply::Reply;
use cells::array::{CellArray, Erasable};
use coset::code::Code;
use group::interface::Group;
use store::store::Store;

// Makes a store over the array, and answers the lines with it.
pub(crate) fn answer_rest<G: Group + Drop, A: Erasable, O: Output>(
    code: Code<G>,
    array: &mut A,
    lines: Lines,
    out: &mut O,
)
    ensures kept { Kept A.held A.intact array.old array.new }
    ensures printed { (counts : Counts) × Replied O.Output out.old out.new
        (λ replies. Answered (code_of G.Group code) (state_of (A.cells array.old) blank)
        (lines_left lines.entry) replies (state_of (A.cells array.new) counts)) }
{
    let array = answer_over(code, array, lines, out);
    let _ = array;
}

// The same of an array that is handed on, and given back.
fn answer_over<G: Group + Drop, A: Erasable, O: Output>(
    code: Code<G>,
    array: A,
    lines: Lines,
    out: &mut O,
) -> A
    ensures kept { Kept A.held A.intact array result }
    ensures printed { (counts : Counts) × Replied O.Output out.old out.new
        (λ replies. Answered (code_of G.Group code) (state_of (A.cells array) blank)
        (lines_left lines.entry) replies (state_of (A.cells result) counts)) }
{
    let mut store = Store::new(code, array);
    answer_lines(&mut store, lines, out);
    store.into_array()
}

// Answers the lines, after the number of the records of the store.
fn answer_lines<G: Group, A: Erasable, O: Output>(
    store: &mut Store<G, A>,
    lines: Lines,
    out: &mut O,
)
    ensures keeps { Keeps A.CellArray store.old store.new }
    ensures printed { Replied O.Output out.old out.new
        (λ replies. Answered (code_of G.Group store.old.code) (state A.CellArray store.old)
        (lines_left lines.entry) replies (state A.CellArray store.new)) }
{
    let made = Reply::Made {
        records: store.records(),
    };
    made.print(out);
    for line in lines {
        let reply = answer_line(store, line);
        reply.print(out);
    }
}
