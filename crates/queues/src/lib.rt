#![tactic(auto)]

// Queues that hold a rank for each place and pick a place whose rank is above 0.
pub mod lowest;
pub mod states;
pub mod traits;

pub use states::LowestQueue;
pub use traits::Queue;

#[cfg(test)]
mod tests;
