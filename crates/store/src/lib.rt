//! The store: records in the pages of a cell array, read and written by calls one at a time or in lists.
//! Whatever the list, the whole promise holds of it.
#![tactic(auto)]

pub mod list;
pub mod making;
mod page;
mod place;
mod record;
pub mod run;
pub mod store;
