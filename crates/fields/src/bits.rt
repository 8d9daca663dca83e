ghost use Rattle.fields.specs.BitLaws.{codes_2};

use crate::codes::Codes;
use crate::elements::Element;
use crate::traits::{DigitField, Field};

// The codes 0 and 1, with exclusive or and and.
#[derive(Clone, Copy)]
pub struct Bits;

// An element of the field of 2 elements: a bit.
pub type Gf2 = Element<Bits>;

// Sum and negation read as those of polynomials do; each arithmetic is written out, so that it can be read whole.
impl Codes for Bits {
    ghost codes = { codes_2 };

    fn size() -> u16 {
        2
    }

    fn plus(a: u8, b: u8) -> u8 {
        a ^ b
    }

    fn negated(a: u8) -> u8 {
        a
    }

    fn times(a: u8, b: u8) -> u8 {
        a & b
    }

    fn inverse(a: u8) -> u8 {
        a
    }
}

impl DigitField for Gf2 {
    ghost radix = { 2 };

    fn radix() -> u16 {
        Self::size()
    }
}
