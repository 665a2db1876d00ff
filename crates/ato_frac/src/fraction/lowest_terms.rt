//! Bringing a quotient of two whole numbers to lowest terms.
ghost use Rattle.std.specs.Prelude.{◌≡◌, ◌<◌, ◌^◌, pos, ◌*ℤ◌, MatchOption};
ghost use Rattle.std.specs.Int.{IsGcd};
ghost use Rattle.ato_frac.specs.LowestTerms.{HasSmallTerms};
ghost use Rattle.ato_frac.specs.Signed.{signed_of};

use crate::Frac;

/// Both parts of a fraction are below this.
pub(crate) const LIMIT: u128 = 0x8000_0000_0000_0000_0000_0000_0000_0000;

/// The greatest common divisor.
pub(crate) fn gcd(a: u128, b: u128) -> u128
    ensures { IsGcd a b result }
{
    let mut x = a;
    let mut y = b;
    while y != 0 {
        let rest = x % y;
        x = y;
        y = rest;
    }
    x
}

/// A size with a sign.
pub fn signed(negative: bool, size: u128) -> i128
    requires { size < 2 ^ 127 }
    ensures { result ≡ signed_of negative size }
{
    if negative {
        -(size as i128)
    } else {
        size as i128
    }
}

/// The fraction of lowest terms p / q.
pub(crate) fn lowest(negative: bool, p: u128, q: u128) -> Frac
    requires positive { 0 < q }
    requires p_small { p < 2 ^ 127 }
    requires q_small { q < 2 ^ 127 }
    requires coprime { IsGcd p q 1 }
    ensures numer { result.numer ≡ signed_of negative p }
    ensures denom { result.denom ≡ q }
{
    Frac {
        numer: signed(negative, p),
        denom: q,
    }
}

/// The fraction n / d of numbers that are small enough.
pub(crate) fn reduced(negative: bool, n: u128, d: u128) -> Frac
    requires positive { 0 < d }
    requires n_small { n < 2 ^ 127 }
    requires d_small { d < 2 ^ 127 }
    ensures { result.numer *ℤ pos d ≡ signed_of negative n *ℤ pos result.denom }
{
    let g = gcd(n, d);
    lowest(negative, n / g, d / g)
}

/// The fraction n / d, where its lowest terms are small enough.
pub(crate) fn reduced_if_small(negative: bool, n: u128, d: u128) -> Option<Frac>
    requires { 0 < d }
    ensures { MatchOption result
        (¬ HasSmallTerms (signed_of negative n) (pos d))
        (λ f. f.numer *ℤ pos d ≡ signed_of negative n *ℤ pos f.denom) }
{
    let g = gcd(n, d);
    let p = n / g;
    let q = d / g;
    if LIMIT <= p || LIMIT <= q {
        return None;
    }
    Some(lowest(negative, p, q))
}
