//! Scripts: a head that makes a store over a fresh flash part, and lines that make calls on it.
//! Whatever the script, it is answered or refused, and its calls keep the whole promise of a store.
#![tactic(auto)]

mod answer;
pub mod fault;
pub mod laws;
mod lines;
pub mod output;
pub mod printer;
pub mod reply;
mod rest;
pub mod script;
mod start;
