ghost use Rattle.std.specs.Prelude.{◌≡◌};
ghost use Rattle.fields.specs.CodeFields.{CodeField};

// A field on the codes below a size. Each operation answers any numbers; below the size it obeys the laws of a field.
pub trait Codes: Copy {
    ghost codes: { CodeField };

    // The number of codes.
    fn size() -> u16
        ensures { result ≡ codes.size };

    fn plus(a: u8, b: u8) -> u8
        ensures { result ≡ codes.plus a b };

    fn negated(a: u8) -> u8
        ensures { result ≡ codes.negated a };

    fn times(a: u8, b: u8) -> u8
        ensures { result ≡ codes.times a b };

    // The inverse; that of zero is zero.
    fn inverse(a: u8) -> u8
        ensures { result ≡ codes.inverse a };
}
