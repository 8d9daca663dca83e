ghost use Rattle.std.specs.Prelude.{◌≡◌, ◌<◌};

use crate::codes::Codes;
use crate::traits::Field;
use std::alloc::AllocError;
use std::marker::PhantomData;

// An element of a field, kept by its code.
#[derive_where(Copy)]
pub struct Element<C: Codes> {
    code: u8,
    codes: PhantomData<C>,
    ghost below: { code < C.codes.size },
}

// A copy is the same element. By hand, since `Clone` cannot be derived over a ghost field that names a member of a bound.
impl<C: Codes> Clone for Element<C> {
    ghost use Rattle.std.specs.Prelude.{⊤};

    ghost is_clone = { λ x copy. copy ≡ x };

    ghost is_infallible = { λ _. ⊤ };

    fn clone(&self) -> Result<Element<C>, AllocError> {
        Ok(*self)
    }
}

impl<C: Codes> Element<C> {
    ghost use Rattle.fields.specs.Elements.{element};

    fn of(code: u8) -> Element<C>
        requires { code < C.codes.size }
        ensures { result ≡ element code }
    {
        Element {
            code,
            codes: PhantomData,
        }
    }
}

impl<C: Codes> Field for Element<C> {
    ghost use Rattle.fields.specs.Elements.{field_of};

    ghost field = { field_of C C.codes };

    fn size() -> u16 {
        C::size()
    }

    fn from_code(code: u16) -> Option<Element<C>> {
        if code < C::size() {
            Some(Element::of(code as u8))
        } else {
            None
        }
    }

    fn code(self) -> u16 {
        u16::from(self.code)
    }

    fn zero() -> Element<C> {
        Element::of(0)
    }

    fn plus(self, other: Element<C>) -> Element<C> {
        Element::of(C::plus(self.code, other.code))
    }

    fn negated(self) -> Element<C> {
        Element::of(C::negated(self.code))
    }

    fn times(self, other: Element<C>) -> Element<C> {
        Element::of(C::times(self.code, other.code))
    }

    fn inverse(self) -> Element<C> {
        Element::of(C::inverse(self.code))
    }
}
