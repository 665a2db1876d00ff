//! Fractions in lowest terms, with a positive denominator and both parts below 2^127 in size.
ghost use Rattle.std.specs.Prelude.{◌<◌, ◌^◌, unsigned_abs};
ghost use Rattle.std.specs.Int.{IsGcd};

mod arithmetic;
mod as_exact;
mod lowest_terms;
mod order;
mod parts;

pub use lowest_terms::signed;
pub(crate) use lowest_terms::{LIMIT, lowest, reduced_if_small};

/// An exact fraction in lowest terms: the denominator is above 0, and it and the numerator are below
/// 2^127 in size. So each value in this range has one fraction, and no other value has any.
#[derive(Clone, Copy, Debug, PartialEq, Eq)]
pub struct Frac {
    numer: i128,
    denom: u128,
    ghost positive: { 0 < denom },
    ghost numer_small: { unsigned_abs numer < 2 ^ 127 },
    ghost denom_small: { denom < 2 ^ 127 },
    ghost lowest: { IsGcd (unsigned_abs numer) denom 1 },
}
