//! Making a fraction of its two parts, and reading these.
ghost use Rattle.std.specs.Prelude.{◌≡◌, ◌≢◌, ◌⊎◌, pos, ◌*ℤ◌, unsigned_abs, int_lt, MatchOption};
ghost use Rattle.ato_frac.specs.Fractions.{value_of};
ghost use Rattle.ato_frac.specs.LowestTerms.{HasSmallTerms};
ghost use Rattle.ato_frac.specs.Range.{IsInRange, IsSmallAndLowest};
ghost use Rattle.ato_rational.specs.Rational.{◌≈ℚ◌, ◌/ℚ◌, whole};

use crate::Frac;
use crate::fraction::lowest_terms::reduced_if_small;

/// The fraction n / d of signed numbers, where its lowest terms are small enough.
fn quotient(n: i128, d: i128) -> Option<Frac>
    requires { d ≢ pos 0 }
    ensures { MatchOption result
        (¬ HasSmallTerms n d)
        (λ f. f.numer *ℤ d ≡ n *ℤ pos f.denom) }
{
    if d < 0 {
        reduced_if_small(0 < n, n.unsigned_abs(), d.unsigned_abs())
    } else {
        reduced_if_small(n < 0, n.unsigned_abs(), d.unsigned_abs())
    }
}

impl Frac {
    /// The fraction n / d. None exactly where d is 0, or where n / d in lowest terms has a part of
    /// 2^127 or more in size.
    pub fn new(n: i128, d: i128) -> Option<Frac>
        ensures { MatchOption result
            ((d ≡ pos 0) ⊎ ¬ IsInRange (whole n /ℚ whole d))
            (λ f. (d ≢ pos 0) × (value_of f ≈ℚ whole n /ℚ whole d)) }
    {
        if d == 0 {
            return None;
        }
        quotient(n, d)
    }

    /// The numerator, which has the sign.
    pub fn numer(&self) -> i128
        ensures value { result ≡ (value_of self.now).num }
        ensures lowest { IsSmallAndLowest (value_of self.now) }
    {
        self.numer
    }

    /// The denominator, which is above 0.
    pub fn denom(&self) -> i128
        ensures value { result ≡ pos (value_of self.now).den }
        ensures lowest { IsSmallAndLowest (value_of self.now) }
    {
        self.denom as i128
    }

    /// The numerator without its sign.
    pub(crate) fn size(&self) -> u128
        ensures { result ≡ unsigned_abs self.now.numer }
    {
        self.numer.unsigned_abs()
    }

    /// Whether the fraction is below 0.
    pub(crate) fn is_negative(&self) -> bool
        ensures { result ≡ int_lt self.now.numer (pos 0) }
    {
        self.numer < 0
    }
}
