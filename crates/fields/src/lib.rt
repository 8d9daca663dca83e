#![tactic(auto)]

// Finite fields of 2 to 256 elements.
pub mod bits;
pub mod codes;
pub mod elements;
pub mod polynomials;
pub mod remainders;
pub mod traits;

pub use bits::{Bits, Gf2};
pub use codes::Codes;
pub use elements::Element;
pub use polynomials::{Gf256, Polynomials, products_are_of_polynomials};
pub use remainders::{Gf101, Remainders};
pub use traits::{DigitField, Field};

#[cfg(test)]
mod tests;
