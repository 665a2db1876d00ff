//! The cells of prices.
ghost use Rattle.std.specs.Prelude.{◌≡◌, ◌<◌, ◌^◌};
ghost use Rattle.ato_catalog.specs.Prices.{next_value, number_of, price_of};

use ato_frac::Coin;

/// The number of some digits and one more, where it is one and the number is below 2^64.
fn next_value(value: u64, digit: u8) -> Option<u64>
    ensures { result ≡ next_value value digit }
{
    if digit.is_ascii_digit() {
        value.checked_mul(10)?.checked_add(u64::from(digit - b'0'))
    } else {
        None
    }
}

/// The number that digits write, where it is below 2^64.
#[tactic(auto, using(crate::proofs::PriceLaws::number_start, crate::proofs::PriceLaws::number_more, crate::proofs::PriceLaws::number_stops, crate::proofs::PriceLaws::number_end))]
fn read_number(digits: &[u8]) -> Option<u64>
    ensures { result ≡ number_of digits.now }
{
    let mut value = 0u64;
    for digit in digits {
        value = next_value(value, *digit)?;
    }
    Some(value)
}

/// The price that a cell writes: one or more digits, leading zeros allowed, of a number below 2^64.
#[tactic(auto, unfolding(crate::specs::Prices::price_of))]
pub(crate) fn read_price(cell: &[u8]) -> Option<Coin>
    ensures { result ≡ price_of cell.now }
{
    if cell.len() == 0 {
        return None;
    }
    match read_number(cell) {
        Some(number) => Some(Coin(number)),
        None => None,
    }
}
