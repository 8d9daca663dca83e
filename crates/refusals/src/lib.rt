#![tactic(auto)]

// What a call takes and what it answers when it refuses: places, rows and faults.
pub mod faults;
pub mod numbers;

pub use faults::{Fault, Layer, Refusal};
pub use numbers::{Place, Row};
