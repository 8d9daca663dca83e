use super::*;

fn product<F: Field>(a: u16, b: u16) -> Option<u16> {
    Some(F::from_code(a)?.times(F::from_code(b)?).code())
}

fn sum<F: Field>(a: u16, b: u16) -> Option<u16> {
    Some(F::from_code(a)?.plus(F::from_code(b)?).code())
}

fn inverse<F: Field>(a: u16) -> Option<u16> {
    Some(F::from_code(a)?.inverse().code())
}

fn digit<F: DigitField>(a: u16) -> Option<bool> {
    Some(F::from_code(a)?.is_digit())
}

#[test]
fn polynomials_multiply(rt: HostRuntime) {
    assert_eq!(rt; product::<Gf256>(128, 2), Some(29));
    assert_eq!(rt; product::<Gf256>(2, 142), Some(1));
    assert_eq!(rt; inverse::<Gf256>(2), Some(142));
    assert_eq!(rt; inverse::<Gf256>(0), Some(0));
    assert_eq!(rt; sum::<Gf256>(200, 100), Some(172));
}

#[test]
fn remainders_and_bits(rt: HostRuntime) {
    assert_eq!(rt; sum::<Gf101>(100, 3), Some(2));
    assert_eq!(rt; product::<Gf101>(51, 2), Some(1));
    assert_eq!(rt; inverse::<Gf101>(51), Some(2));
    assert_eq!(rt; inverse::<Gf101>(0), Some(0));
    assert_eq!(rt; sum::<Gf2>(1, 1), Some(0));
    assert_eq!(rt; product::<Gf2>(1, 1), Some(1));
}

#[test]
fn codes_past_the_size_are_none(rt: HostRuntime) {
    assert_eq!(rt; sum::<Gf2>(2, 0), None);
    assert_eq!(rt; sum::<Gf101>(101, 0), None);
    assert_eq!(rt; sum::<Gf256>(256, 0), None);
}

#[test]
fn digits_are_below_the_radix(rt: HostRuntime) {
    assert_eq!(rt; digit::<Gf101>(99), Some(true));
    assert_eq!(rt; digit::<Gf101>(100), Some(false));
    assert_eq!(rt; digit::<Gf256>(255), Some(true));
    assert_eq!(rt; digit::<Gf2>(1), Some(true));
}
