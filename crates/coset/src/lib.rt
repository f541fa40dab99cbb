//! Coset codes: the cells of a record and their labels, and the planner, which finds the smallest
//! set of cells that takes a record to a value, and of several the first.
#![tactic(auto)]

pub mod cellset;
pub mod code;
pub mod laws;
pub mod planner;
#[cfg(test)]
mod tests;
