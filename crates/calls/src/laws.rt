//! Theorems over whole histories of calls, each on the contract of a function of its own.
//! They speak of the definitions; the calls of a store are to be shown to obey the rules that they start from.
ghost use Rattle.calls.specs.Determined.{CallsAgree, HistoriesAgree, RunsAgree, ListsAgree};
ghost use Rattle.calls.specs.Examples.{Worked};
ghost use Rattle.calls.specs.Lists.{PairedCellsKnown};
ghost use Rattle.calls.specs.Promise.{RulesSuffice, SingleCallsSuffice};
ghost use Rattle.calls.specs.Records.{MakesExactly};
ghost use Rattle.calls.specs.Sample.{IntegersLawful, SampleObeys, PageLifeObeys};

use cells::array::CellArray;
use cells::paired::Paired;

/// Whatever obeys the rules of one call at each call keeps the whole promise over the list: changes per erase and what a
/// data sheet may say besides, a set cell lasts until its page is renewed, a get answers the value last accepted, wear,
/// ledger, full exactly when nothing fits, and the first of the fewest.
pub fn rules_suffice()
    ensures { RulesSuffice }
{}

/// Calls made singly, each on a store made for it, keep it together: so do those of callers in C on an image.
pub fn single_calls_suffice()
    ensures { SingleCallsSuffice }
{}

/// Over a paired part on any array, a list of calls leaves each cell below known: a half of a pair becomes set only by a
/// mark of the history, and unset only by an erase of its page.
pub fn paired_cells_known<A: CellArray>()
    ensures { PairedCellsKnown A.CellArray ⟦<Paired<A> as CellArray>⟧ }
{}

/// One call, and a run of them, is determined: with one code and from states that agree the same
/// calls have the same answers, a fault with all that it carries included, need the same steps of
/// the array, and end in states that agree. This is said of one call, of calls one after the other,
/// each by its rules, and of lists of calls with the promise.
pub fn runs_agree()
    ensures calls { CallsAgree }
    ensures histories { HistoriesAgree }
    ensures runs { RunsAgree }
{}

/// So are lists of calls with one code over any two arrays whose cells agree, of one kind or not,
/// from equal ledgers: the entries of both lists are equal afterwards, and so are the ledgers; both
/// arrays took the same steps, and their cells agree.
pub fn lists_agree<A: CellArray, B: CellArray, C>()
    ensures { ListsAgree A.CellArray B.CellArray C }
{}

/// The rules can be obeyed: there are lawful groups of every order from 2 to 64, a history with every kind of call and
/// refusal, and the life of a page with the figure 1, up to a renewal that is refused as worn out.
pub fn rules_can_be_met()
    ensures lawful { IntegersLawful }
    ensures sample { SampleObeys }
    ensures life { PageLifeObeys }
{}

/// A making is accepted exactly where none of its rows holds.
pub fn makings_agree()
    ensures { MakesExactly }
{}

/// The examples worked by hand hold of the definitions.
pub fn examples_hold()
    ensures { Worked }
{}
