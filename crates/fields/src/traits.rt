ghost use Rattle.std.specs.Prelude.{◌≡◌, ℕ, ◌≤◌, nat_lt};
ghost use Rattle.fields.specs.Models.{FieldModel, of_code};

// The elements of a finite field of 2 to 256 elements.
pub trait Field: Copy {
    ghost field: { FieldModel Self };

    // The number of elements.
    fn size() -> u16
        ensures { result ≡ field.size };

    // The element of a code below the size.
    fn from_code(code: u16) -> Option<Self>
        ensures { result ≡ of_code field code };

    fn code(self) -> u16
        ensures { result ≡ field.code self };

    fn zero() -> Self
        ensures { result ≡ field.element 0 };

    fn plus(self, other: Self) -> Self
        ensures { result ≡ field.plus self other };

    fn negated(self) -> Self
        ensures { result ≡ field.negated self };

    fn times(self, other: Self) -> Self
        ensures { result ≡ field.times self other };

    // The inverse; that of zero is zero.
    fn inverse(self) -> Self
        ensures { result ≡ field.inverse self };
}

// A field with a radix: the codes below the radix are digits. Each names its radix; what is the same for all stands here.
pub trait DigitField: Field {
    ghost radix: { ℕ };

    fn radix() -> u16
        ensures value { result ≡ radix }
        ensures low { 2 ≤ result }
        ensures high { result ≤ Self.Field.field.size };

    fn is_digit(self) -> bool
        ensures { result ≡ nat_lt (Self.Field.field.code self) radix }
    {
        self.code() < Self::radix()
    }
}
