// The lines of a script: what each of them orders, or why it is refused and at which column.
// Nothing here makes a call.
#![tactic(auto)]

pub mod command;
pub mod factor;
pub mod fault;
pub mod group_word;
pub mod head;
pub mod laws;
mod opening;
pub mod word;
