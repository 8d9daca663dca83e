#![tactic(auto)]

// Sets of the numbers below 512, kept as one bit a number and copied by value.
pub mod members;
pub mod sets;

pub use sets::BitSet;

#[cfg(test)]
mod tests;
