//! Numbers and fractions at the front of a text.
ghost use Rattle.std.specs.Prelude.{◌≡◌, ℕ, ◌<◌, ◌≤◌, ◌^◌, ◌++◌, ◌∷◌, List, length, codes, Some, IfSome, IsSomeAnd};
ghost use Rattle.std.specs.List.{prefix_len};
ghost use Rattle.std.specs.Char.{is_ascii_digit};
ghost use Rattle.std.specs.Fmt.{decimal};
ghost use Rattle.ato_frac.specs.declared.fraction.Frac as frac;
ghost use Rattle.ato_frac.specs.Fractions.{value_of};
ghost use Rattle.ato_frac.specs.Signed.{signed_of};
ghost use Rattle.ato_cert.specs.Reading.{NoDigitFirst, fraction_text};

use crate::pieces::after;
use ato_frac::{Frac, signed};
use std::str;

/// The parts of a fraction are below this in size.
const LIMIT: u128 = 1 << 127;

/// Where the digits at the front end.
fn digits_end(text: &[u8]) -> usize
    ensures at { result ≡ prefix_len is_ascii_digit text.now }
    ensures within { result ≤ length text.now }
{
    text.iter().take_while(|byte| byte.is_ascii_digit()).count()
}

/// The number of digits, if it fits.
fn value_of_digits(digits: &[u8]) -> Option<u128>
    ensures { (n : ℕ) → n < 2 ^ 127 → digits.now ≡ decimal n → result ≡ Some n }
{
    let Ok(digits) = str::from_utf8(digits) else {
        return None
    };
    match digits.parse::<u128>() {
        Ok(value) => Some(value),
        Err(_) => None,
    }
}

/// The number that stands first, and what follows its digits. It may have zeros at its front.
fn wide_number(text: &[u8]) -> Option<(u128, &[u8])>
    ensures back { (n : ℕ) (rest : List ℕ) → n < 2 ^ 127 → NoDigitFirst rest → text.now ≡ decimal n ++ rest
        → IsSomeAnd result (λ r. (r.0 ≡ n) × (r.1.now ≡ rest)) }
    ensures shorter { IfSome result (λ r. length r.1.now ≤ length text.now) }
{
    let (digits, rest) = text.split_at(digits_end(text));
    match value_of_digits(digits) {
        Some(value) => Some((value, rest)),
        None => None,
    }
}

/// The number below 2^32 that stands first, and what follows its digits.
pub(crate) fn number(text: &[u8]) -> Option<(u32, &[u8])>
    ensures { (n : ℕ) (rest : List ℕ) → n < 2 ^ 32 → NoDigitFirst rest → text.now ≡ decimal n ++ rest
        → IsSomeAnd result (λ r. (r.0 ≡ n) × (r.1.now ≡ rest)) }
{
    let (wide, rest) = wide_number(text)?;
    match u32::try_from(wide) {
        Ok(small) => Some((small, rest)),
        Err(_) => None,
    }
}

/// The fraction of a size with a sign and a denominator.
fn fraction_of(negative: bool, size: u128, denominator: u128) -> Option<Frac>
    ensures { (f : frac.Frac) → (value_of f).num ≡ signed_of negative size → (value_of f).den ≡ denominator
        → result ≡ Some f }
{
    if LIMIT <= size || LIMIT <= denominator {
        return None;
    }
    Frac::new(signed(negative, size), signed(false, denominator))
}

/// The fraction of a size and of the denominator that stands first, and what follows.
fn over_denominator(negative: bool, size: u128, text: &[u8]) -> Option<(Frac, &[u8])>
    ensures back { (f : frac.Frac) (rest : List ℕ) → NoDigitFirst rest → (value_of f).num ≡ signed_of negative size
        → text.now ≡ decimal (value_of f).den ++ rest → IsSomeAnd result (λ r. (r.0 ≡ f) × (r.1.now ≡ rest)) }
    ensures shorter { IfSome result (λ r. length r.1.now ≤ length text.now) }
{
    match wide_number(text) {
        Some((denominator, rest)) => match fraction_of(negative, size, denominator) {
            Some(fraction) => Some((fraction, rest)),
            None => None,
        },
        None => None,
    }
}

/// The fraction of two numbers with a stroke between them.
fn unsigned_fraction(negative: bool, text: &[u8]) -> Option<(Frac, &[u8])>
    ensures back { (f : frac.Frac) (n : ℕ) (rest : List ℕ) → NoDigitFirst rest → (value_of f).num ≡ signed_of negative n
        → text.now ≡ decimal n ++ (47 ∷ (decimal (value_of f).den ++ rest))
        → IsSomeAnd result (λ r. (r.0 ≡ f) × (r.1.now ≡ rest)) }
    ensures shorter { IfSome result (λ r. length r.1.now ≤ length text.now) }
{
    match wide_number(text) {
        Some((size, rest)) => match after(rest, b"/") {
            Some(rest) => over_denominator(negative, size, rest),
            None => None,
        },
        None => None,
    }
}

/// The fraction that stands first, and what follows. It may not be in lowest terms.
pub(crate) fn fraction(text: &[u8]) -> Option<(Frac, &[u8])>
    ensures back { (f : frac.Frac) (rest : List ℕ) → NoDigitFirst rest → text.now ≡ fraction_text f ++ rest
        → IsSomeAnd result (λ r. (r.0 ≡ f) × (r.1.now ≡ rest)) }
    ensures shorter { IfSome result (λ r. length r.1.now ≤ length text.now) }
{
    match after(text, b"-") {
        Some(size) => unsigned_fraction(true, size),
        None => unsigned_fraction(false, text),
    }
}
