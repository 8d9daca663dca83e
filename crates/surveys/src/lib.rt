#![tactic(auto)]

// The survey of a graph: the first set of places that fails to expand, and the level up to which all sets do.
pub mod answers;
mod counts;
mod searches;
pub mod sets;
mod sizes;
mod surveys;
pub mod tables;

pub use answers::Survey;
pub use sets::PlaceSet;
pub use tables::RowTable;

#[cfg(test)]
mod tests;
