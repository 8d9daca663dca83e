#![tactic(auto)]

// A word over a graph with its row sums: the edges of a graph by place, the symbols, the sums of the rows, the votes of the
// open rows, and the places that share a row.
pub mod edges;
pub mod links;
pub mod neighbours;
pub mod votes;
pub mod words;

pub use edges::EdgeTable;
pub use links::Link;
pub use neighbours::Neighbours;
pub use votes::Vote;
pub use words::Word;

#[cfg(test)]
mod tests;
