//! What the token of a number says of its text.
ghost use Rattle.std.specs.Prelude.{◌≡◌, nat_le, Some, None, if◌then◌else◌, true};
ghost use Rattle.std.specs.Char.{is_ascii_digit};
ghost use Rattle.std.specs.List.{list_all};
ghost use Rattle.std.specs.Str.{chars};
ghost use Rattle.ato_frac.specs.Numbers.{digits_value};
ghost use Rattle.ato_lexer.specs.Tokens.{small_value};
ghost use Rattle.ato_lexer.specs.WideNumbers.{is_wide};

use ato_frac::{DecimalFault, Frac};

/// Whether a text is a number that is wide: out of the range in which fractions are read.
#[tactic(auto, using(crate::proofs::NumberLemmas::read_fits, crate::proofs::NumberLemmas::no_number_fits, crate::proofs::NumberLemmas::wide_told))]
pub(crate) fn is_wide(text: &str) -> bool
    ensures { result ≡ is_wide (chars text.now) }
{
    match Frac::from_decimal(text.as_bytes()) {
        Ok(_) => false,
        Err(fault) => match fault {
            DecimalFault::BadText => false,
            DecimalFault::Wide => true,
        },
    }
}

/// Whether a text is digits alone.
pub(crate) fn is_whole(text: &str) -> bool
    ensures { result ≡ list_all is_ascii_digit (chars text.now) }
{
    text.chars().all(|next| next.is_ascii_digit())
}

/// The value of digits, where it is at most 65,535.
fn small_of(digits: &[u8]) -> Option<u16>
    requires { list_all is_ascii_digit digits.now ≡ true }
    ensures { result ≡ (if nat_le (digits_value digits.now) 65535 then Some (digits_value digits.now) else None) }
{
    let mut value: u32 = 0;
    for digit in digits {
        value = value * 10 + (*digit - b'0') as u32;
        if value > 65_535 {
            return None;
        }
    }
    Some(value as u16)
}

/// The value of a text of digits alone, where it is at most 65,535.
pub(crate) fn small_value(text: &str) -> Option<u16>
    ensures { result ≡ small_value (chars text.now) }
{
    if is_whole(text) {
        small_of(text.as_bytes())
    } else {
        None
    }
}
