//! Fractions from the texts of numbers.
ghost use Rattle.std.specs.Prelude.{MatchResult};
ghost use Rattle.ato_frac.specs.Decimals.{Reads, RefusesText};

mod reading;
mod scaling;
mod trimming;
mod value;

use crate::decimal::reading::read_number;
use crate::decimal::value::fraction_of;
use crate::{DecimalFault, Frac};

impl Frac {
    /// The fraction of a number's text: digits; after them perhaps a point and digits; after these
    /// perhaps `e` or `E`, a sign or none, and digits.
    ///
    /// `BadText` exactly where the text is no such number. Else let m times 10^e be its value with m
    /// no multiple of 10, or 0 times 10^0: `Wide` exactly where m is 2^127 or more, or e is below -38
    /// or above 38, or the value has no fraction. The text is gone through once.
    pub fn from_decimal(text: &[u8]) -> Result<Frac, DecimalFault>
        ensures { MatchResult result (Reads text.now) (RefusesText text.now) }
    {
        let Some(parts) = read_number(text) else {
            return Err(DecimalFault::BadText)
        };
        fraction_of(parts.whole, parts.fraction, parts.negative, parts.exponent).ok_or(
            DecimalFault::Wide,
        )
    }
}
