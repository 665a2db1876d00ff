//! The fraction that a number's parts stand for.
ghost use Rattle.std.specs.Prelude.{◌≡◌, ◌+◌, ◌*◌, ◌-◌, ◌<◌, ◌≤◌, ◌^◌, ◌++◌, true, length, pos, ◌+ℤ◌, neg_ℤ, MatchOption};
ghost use Rattle.std.specs.List.{list_all};
ghost use Rattle.std.specs.Char.{is_ascii_digit};
ghost use Rattle.ato_frac.specs.Decimals.{IsReadAs};
ghost use Rattle.ato_frac.specs.Numbers.{digits_value, number_value};
ghost use Rattle.ato_frac.specs.Signed.{signed_of};
ghost use Rattle.ato_frac.specs.Trimmed.{IsTrimmed, IsTooLong};

use crate::decimal::scaling::scaled;
use crate::decimal::trimming::{Trimmed, with_digits};
use crate::{Exact, Frac};

/// The digits before and after the point as one whole number.
fn significand(whole: &[u8], fraction: &[u8]) -> Option<Trimmed>
    requires whole { list_all is_ascii_digit whole.now ≡ true }
    requires fraction { list_all is_ascii_digit fraction.now ≡ true }
    requires length { length whole.now + length fraction.now < 2 ^ 63 }
    ensures { MatchOption result
        (IsTooLong (digits_value (whole.now ++ fraction.now)))
        (λ r. IsTrimmed (digits_value (whole.now ++ fraction.now)) r.significand r.zeros
        × (r.significand < 2 ^ 127)
        × (r.zeros ≤ length whole.now + length fraction.now)) }
{
    let start = Trimmed {
        significand: 0,
        zeros: 0,
    };
    let front = with_digits(start, whole)?;
    with_digits(front, fraction)
}

/// The number after one more digit, where it is below 2^64.
fn next_size(size: u64, digit: u8) -> Option<u64>
    requires { digit < 10 }
    ensures { MatchOption result
        (2 ^ 64 ≤ size * 10 + digit)
        (λ r. r ≡ size * 10 + digit) }
{
    size.checked_mul(10)?.checked_add(digit as u64)
}

/// The value of an exponent's digits, where it is below 2^64.
fn exponent_size(digits: &[u8]) -> Option<u64>
    requires { list_all is_ascii_digit digits.now ≡ true }
    ensures { MatchOption result
        (2 ^ 64 ≤ digits_value digits.now)
        (λ r. r ≡ digits_value digits.now) }
{
    let mut size = 0u64;
    for digit in digits {
        size = next_size(size, *digit - b'0')?;
    }
    Some(size)
}

/// The powers of 10 in the numerator and in the denominator.
fn powers(zeros: usize, places: usize, negative: bool, size: u64) -> (u128, u128)
    ensures { pos result.0 +ℤ neg_ℤ (pos result.1)
        ≡ (signed_of negative size +ℤ neg_ℤ (pos places)) +ℤ pos zeros }
{
    if negative {
        (zeros as u128, places as u128 + size as u128)
    } else {
        (zeros as u128 + size as u128, places as u128)
    }
}

/// The fraction of a number's parts, if it is read.
pub(crate) fn fraction_of(
    whole: &[u8],
    fraction: &[u8],
    negative: bool,
    exponent: &[u8],
) -> Option<Frac>
    requires whole { list_all is_ascii_digit whole.now ≡ true }
    requires fraction { list_all is_ascii_digit fraction.now ≡ true }
    requires exponent { list_all is_ascii_digit exponent.now ≡ true }
    requires length { length whole.now + length fraction.now < 2 ^ 63 }
    ensures { IsReadAs
        (number_value (record {
          whole = whole.now;
          fraction = fraction.now;
          negative = negative;
          exponent = exponent.now;
        }))
        result }
{
    let number = significand(whole, fraction)?;
    if number.significand == 0 {
        return Some(Frac::zero());
    }
    let size = exponent_size(exponent)?;
    let (up, down) = powers(number.zeros, fraction.len(), negative, size);
    scaled(number.significand, up, down)
}
