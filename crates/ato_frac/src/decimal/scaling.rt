//! Fractions of whole numbers times powers of 10.
ghost use Rattle.std.specs.Prelude.{◌≡◌, ◌<◌, ◌≤◌, ◌^◌, pos, ◌+ℤ◌, neg_ℤ, ◌≤ℤ◌, MatchOption};
ghost use Rattle.ato_rational.specs.Rational.{◌≈ℚ◌, ◌*ℚ◌, whole};
ghost use Rattle.ato_frac.specs.Fractions.{value_of};
ghost use Rattle.ato_frac.specs.Numbers.{ten_to};
ghost use Rattle.ato_frac.specs.Range.{IsInRange};
ghost use Rattle.ato_frac.specs.Scaling.{CanScale};

use crate::Frac;
use crate::decimal::trimming::power_of_ten;
use crate::fraction::{lowest, reduced_if_small};

/// The largest power of 10 either way.
const MOST: u128 = 38;

/// A whole number as a fraction.
fn whole_fraction(n: u128) -> Frac
    requires { n < 2 ^ 127 }
    ensures { value_of result ≈ℚ whole (pos n) }
{
    lowest(false, n, 1)
}

impl Frac {
    /// 10 to a power from -38 to 38.
    pub fn power_of_ten(power: i32) -> Frac
        requires from { neg_ℤ (pos 38) ≤ℤ power }
        requires to { power ≤ℤ pos 38 }
        ensures { value_of result ≈ℚ ten_to power }
    {
        let size = power_of_ten(power.unsigned_abs());
        if power < 0 {
            lowest(false, 1, size)
        } else {
            whole_fraction(size)
        }
    }
}

/// m · 10^k
fn times_power(m: u128, k: u32) -> Option<Frac>
    requires m_small { m < 2 ^ 127 }
    requires k_small { k ≤ 38 }
    ensures { MatchOption result
        (¬ IsInRange (whole (pos m) *ℚ ten_to (pos k)))
        (λ f. value_of f ≈ℚ whole (pos m) *ℚ ten_to (pos k)) }
{
    whole_fraction(m).mul(&whole_fraction(power_of_ten(k))).ok()
}

/// m / 10^k
fn over_power(m: u128, k: u32) -> Option<Frac>
    requires positive { 0 < k }
    requires k_small { k ≤ 38 }
    ensures { MatchOption result
        (¬ IsInRange (whole (pos m) *ℚ ten_to (neg_ℤ (pos k))))
        (λ f. value_of f ≈ℚ whole (pos m) *ℚ ten_to (neg_ℤ (pos k))) }
{
    reduced_if_small(false, m, power_of_ten(k))
}

/// m · 10^(up - down)
pub(crate) fn scaled(m: u128, up: u128, down: u128) -> Option<Frac>
    requires { m < 2 ^ 127 }
    ensures { MatchOption result
        (¬ CanScale m (pos up +ℤ neg_ℤ (pos down)))
        (λ f. CanScale m (pos up +ℤ neg_ℤ (pos down))
        × (value_of f ≈ℚ whole (pos m) *ℚ ten_to (pos up +ℤ neg_ℤ (pos down)))) }
{
    if down <= up {
        if MOST < up - down {
            return None;
        }
        times_power(m, (up - down) as u32)
    } else {
        if MOST < down - up {
            return None;
        }
        over_power(m, (down - up) as u32)
    }
}
