// Cutting bytes into pieces at a separator, and reading numbers that are written in decimal.
// Both take any bytes at all.
#![tactic(auto)]

pub mod number;
pub mod pieces;
#[cfg(test)]
mod tests;
