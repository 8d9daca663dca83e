#![tactic(auto)]

// Sparse graphs between places and rows, and the two files that describe one.
pub mod files;
mod records;
pub mod traits;

pub use files::{FileGraph, GraphFile};
pub use records::Shape;
pub use traits::{Edge, Graph, Meeting};

#[cfg(test)]
mod tests;
