// The calls on a store, why they are refused, what is counted of them, and the theorems over every list of them.
// There is no store here: whatever obeys the rules of one call keeps the promise over the whole list.
#![tactic(auto)]

pub mod call;
pub mod fault;
pub mod laws;
pub mod ledger;
