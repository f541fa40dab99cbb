// Finite abelian groups of at most 64 elements, zero_outside from 0: the integers modulo a number,
// the binary vectors, and the products of groups.
#![tactic(auto)]

pub mod integers;
pub mod interface;
pub mod product;
#[cfg(test)]
mod tests;
pub mod vectors;
