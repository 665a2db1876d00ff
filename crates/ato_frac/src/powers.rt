//! Absolute values and powers of exact numbers.
ghost use Rattle.std.specs.Prelude.{◌≤◌, MatchOption};
ghost use Rattle.ato_rational.specs.Rational.{◌≈ℚ◌, abs_ℚ, power_ℚ};
ghost use Rattle.ato_frac.specs.Powers.{CanTurn, CanRaise, CannotRaise};

use crate::{Exact, at_most};

/// The absolute value. None exactly where the number is below 0 and its opposite, the difference of 0
/// and the number, is refused.
pub fn absolute<Q: Exact>(x: &Q) -> Option<Q>
    ensures { MatchOption result
        (¬ CanTurn Q.value Q.can_subtract x.now)
        (λ r. CanTurn Q.value Q.can_subtract x.now × (Q.value r ≈ℚ abs_ℚ (Q.value x.now))) }
{
    let zero = Q::zero();
    if at_most(&zero, x) {
        Some(*x)
    } else {
        Some(zero.minus(x)?)
    }
}

/// The k-th power, by k - 1 products from the left: the square, that times the number, and so on. None
/// exactly where such a product is refused.
pub fn power<Q: Exact>(x: &Q, k: u32) -> Option<Q>
    requires { 1 ≤ k }
    ensures { MatchOption result
        (CannotRaise Q.value Q.can_multiply x.now k)
        (λ r. CanRaise Q.value Q.can_multiply x.now k × (Q.value r ≈ℚ power_ℚ (Q.value x.now) k)) }
{
    let mut power = *x;
    'factors: for _ in 1..k {
        power = power.times(x)?;
    }
    Some(power)
}
