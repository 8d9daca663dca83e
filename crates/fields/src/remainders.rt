ghost use Rattle.std.specs.Prelude.{◌≡◌};
ghost use Rattle.fields.specs.Remainders.{inverse};
ghost use Rattle.fields.specs.RemainderLaws.{codes_101};

use crate::codes::Codes;
use crate::elements::Element;
use crate::traits::DigitField;

// The codes below 101, with arithmetic modulo 101.
#[derive(Clone, Copy)]
pub struct Remainders;

// An element of the field of 101 elements: a remainder modulo 101.
pub type Gf101 = Element<Remainders>;

// The inverse of each remainder.
const INVERSES: [u8; 101] = [
    0, 1, 51, 34, 76, 81, 17, 29, 38, 45, 91, 46, 59, 70, 65, 27, 19, 6, 73, 16, 96, 77, 23, 22,
    80, 97, 35, 15, 83, 7, 64, 88, 60, 49, 3, 26, 87, 71, 8, 57, 48, 69, 89, 47, 62, 9, 11, 43, 40,
    33, 99, 2, 68, 61, 58, 90, 92, 39, 54, 12, 32, 53, 44, 93, 30, 14, 75, 98, 52, 41, 13, 37, 94,
    18, 86, 66, 4, 21, 79, 78, 24, 5, 85, 28, 95, 82, 74, 36, 31, 42, 55, 10, 56, 63, 72, 84, 20,
    25, 67, 50, 100,
];

fn inverse_of(a: u8) -> u8
    ensures { result ≡ inverse a }
{
    INVERSES[usize::from(a % 101)]
}

impl Codes for Remainders {
    ghost codes = { codes_101 };

    fn size() -> u16 {
        101
    }

    fn plus(a: u8, b: u8) -> u8 {
        ((u16::from(a) + u16::from(b)) % 101) as u8
    }

    fn negated(a: u8) -> u8 {
        u8::saturating_sub(101, a) % 101
    }

    fn times(a: u8, b: u8) -> u8 {
        (u16::from(a) * u16::from(b) % 101) as u8
    }

    fn inverse(a: u8) -> u8 {
        inverse_of(a)
    }
}

impl DigitField for Gf101 {
    ghost radix = { 100 };

    fn radix() -> u16 {
        100
    }
}
