//! A whole number from its digits, without the zeros at its end.
ghost use Rattle.std.specs.Prelude.{◌≡◌, ◌+◌, ◌-◌, ◌*◌, ◌≤◌, ◌<◌, ◌^◌, length, true, MatchOption};
ghost use Rattle.std.specs.List.{list_all};
ghost use Rattle.std.specs.Char.{is_ascii_digit};
ghost use Rattle.ato_frac.specs.Trimmed.{IsTrimmed, IsTooLong};
ghost use Rattle.ato_frac.specs.Numbers.{digits_after};

use crate::fraction::LIMIT;

/// The significand times 10^zeros. The significand is no multiple of 10, or 0.
#[derive(Clone, Copy)]
pub(crate) struct Trimmed {
    pub(crate) significand: u128,
    pub(crate) zeros: usize,
}

/// 10 to a power that is not large.
pub(crate) fn power_of_ten(k: u32) -> u128
    requires { k ≤ 38 }
    ensures value { result ≡ 10 ^ k }
    ensures small { result < 2 ^ 127 }
{
    10u128.pow(k)
}

/// The number after a digit that is not 0, where it is below 2^127.
fn after_digit(number: Trimmed, digit: u8) -> Option<u128>
    requires trimmed { IsTrimmed (number.significand * 10 ^ number.zeros) number.significand number.zeros }
    requires digit { digit < 10 }
    ensures { MatchOption result
        (2 ^ 127 ≤ number.significand * 10 ^ number.zeros * 10 + digit)
        (λ r. (r ≡ number.significand * 10 ^ number.zeros * 10 + digit) × (r < 2 ^ 127)) }
{
    if 37 < number.zeros {
        return None;
    }
    let shift = power_of_ten(number.zeros as u32 + 1);
    let significand = number
        .significand
        .checked_mul(shift)?
        .checked_add(digit as u128)?;
    if significand < LIMIT {
        Some(significand)
    } else {
        None
    }
}

/// The number after one more digit. None where its digits, without the zeros at the end, are too many.
fn with_digit(number: Trimmed, digit: u8) -> Option<Trimmed>
    requires trimmed { IsTrimmed (number.significand * 10 ^ number.zeros) number.significand number.zeros }
    requires small { number.significand < 2 ^ 127 }
    requires digit { digit < 10 }
    requires zeros { number.zeros < 2 ^ 63 }
    ensures { MatchOption result
        (IsTooLong (number.significand * 10 ^ number.zeros * 10 + digit))
        (λ r. IsTrimmed (number.significand * 10 ^ number.zeros * 10 + digit) r.significand r.zeros
        × (r.significand < 2 ^ 127)
        × (r.zeros ≤ number.zeros + 1)) }
{
    if digit != 0 {
        let significand = after_digit(number, digit)?;
        return Some(Trimmed {
            significand,
            zeros: 0,
        });
    }
    if number.significand == 0 {
        return Some(number);
    }
    Some(Trimmed {
        significand: number.significand,
        zeros: number.zeros + 1,
    })
}

/// The number after more digits.
pub(crate) fn with_digits(start: Trimmed, digits: &[u8]) -> Option<Trimmed>
    requires trimmed { IsTrimmed (start.significand * 10 ^ start.zeros) start.significand start.zeros }
    requires small { start.significand < 2 ^ 127 }
    requires digits { list_all is_ascii_digit digits.now ≡ true }
    requires zeros { start.zeros + length digits.now < 2 ^ 63 }
    ensures { MatchOption result
        (IsTooLong (digits_after (start.significand * 10 ^ start.zeros) digits.now))
        (λ r. IsTrimmed (digits_after (start.significand * 10 ^ start.zeros) digits.now) r.significand r.zeros
        × (r.significand < 2 ^ 127)
        × (r.zeros ≤ start.zeros + length digits.now)) }
{
    let mut number = start;
    for digit in digits {
        number = with_digit(number, *digit - b'0')?;
    }
    Some(number)
}
