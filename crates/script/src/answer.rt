//! One line after the head: its order is read, its calls are made, and the reply is what they answered.
//! A refused line makes no call.
ghost use Rattle.std.specs.Prelude.{◌≡◌, Decides, MatchResult, IsOkAnd};
ghost use Rattle.calls.specs.History.{RefusedFull};
ghost use Rattle.coset.specs.Codes.{code_of};
ghost use Rattle.store.specs.Keeps.{Keeps, state};
ghost use Rattle.script.specs.Execution.{fault_of_call, ExecutesOrder, ExecutesLine, Execution, reply_of};

use crate::fault::{OrderPlace, ScriptFault};
use crate::lines::Line;
use crate::reply::Reply;
use calls::fault::{Locate, StoreFault};
use cells::array::{CellArray, Erasable};
use commands::command::Order;
use group::interface::Group;
use store::store::Store;

// Reads a line, and carries its order out. The store and the line go on beside each other to two functions; a struct of
// both would hold a borrow for these alone.
pub(crate) fn answer_line<G: Group, A: Erasable>(store: &mut Store<G, A>, line: Line) -> Reply
    ensures keeps { Keeps A.CellArray store.old store.new }
    ensures execution { Execution (code_of G.Group store.old.code)
        (λ h. ExecutesLine line.entry.number line.entry.bytes.now (state A.CellArray store.old)
        h result)
        (state A.CellArray store.old) (state A.CellArray store.new) }
{
    obey(store, line).unwrap_or_else(|fault| Reply::Refused { fault })
}

fn obey<G: Group, A: Erasable>(store: &mut Store<G, A>, line: Line) -> Result<Reply, ScriptFault>
    ensures keeps { Keeps A.CellArray store.old store.new }
    ensures execution { Execution (code_of G.Group store.old.code)
        (λ h. ExecutesLine line.entry.number line.entry.bytes.now (state A.CellArray store.old)
        h (reply_of result))
        (state A.CellArray store.old) (state A.CellArray store.new) }
{
    let order = Order::read(line.bytes).located_at(line.number)?;
    carry_out(store, line.number, order)
}

// Makes the calls of an order. By cases, since an order is data, and which calls it makes is all that it says.
fn carry_out<G: Group, A: Erasable>(
    store: &mut Store<G, A>,
    line: usize,
    order: Order,
) -> Result<Reply, ScriptFault>
    ensures keeps { Keeps A.CellArray store.old store.new }
    ensures execution { Execution (code_of G.Group store.old.code)
        (λ h. ExecutesOrder line order (state A.CellArray store.old) h (reply_of result))
        (state A.CellArray store.old) (state A.CellArray store.new) }
{
    match order {
        Order::Put { record, value } => {
            let answer = store.put(record.index(), value.value);
            let place = OrderPlace::of(line, record, value);
            replied(answer, place, |cells| Reply::Wrote { cells })
        }
        Order::Renew { record, value } => {
            let answer = store.renew(record.index(), value.value);
            let place = OrderPlace::of(line, record, value);
            replied(answer, place, |cells| Reply::Renewed { cells })
        }
        Order::Save { record, value } => {
            let place = OrderPlace::of(line, record, value);
            let answer = store.put(record.index(), value.value);
            if is_full(answer) {
                let again = store.renew(record.index(), value.value);
                replied(again, place, |cells| Reply::Renewed { cells })
            } else {
                replied(answer, place, |cells| Reply::Wrote { cells })
            }
        }
        Order::Get { record } => {
            let answer = store.get(record.index());
            let place = OrderPlace::of_get(line, record);
            replied(answer, place, |value| Reply::Holds { value })
        }
        Order::Ledger => Ok(Reply::Counted {
            ledger: store.ledger(),
        }),
    }
}

// Whether a put was refused as full.
fn is_full(answer: Result<u32, StoreFault>) -> bool
    ensures { Decides result (RefusedFull answer) }
{
    matches!(answer, Err(StoreFault::Full { .. }))
}

// What is replied to an answer, or its refusal with the place of its order.
fn replied<F: FnOnce(u32) -> Reply>(
    answer: Result<u32, StoreFault>,
    place: OrderPlace,
    reply: F,
) -> Result<Reply, ScriptFault>
    requires { F.IsAlwaysCallable reply }
    ensures { MatchResult answer (λ v. IsOkAnd result (F.post reply v))
        (λ f. result ≡ Err (fault_of_call place f)) }
{
    let value = answer.located_at(place)?;
    Ok(reply(value))
}
