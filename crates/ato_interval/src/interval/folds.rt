//! Absolute values and powers of intervals.
ghost use Rattle.std.specs.Prelude.{◌≡◌, ◌⊎◌, ◌≤◌, IfOk, MatchResult};
ghost use Rattle.ato_rational.specs.Rational.{◌≈ℚ◌, ◌≤ℚ◌, abs_ℚ, power_ℚ, zero_ℚ};
ghost use Rattle.ato_frac.specs.Powers.{CanTurn, CanRaise, CannotRaise};
ghost use Rattle.ato_interval.specs.Folds.{IsFolded};
ghost use Rattle.ato_interval.specs.Results.{HoldsImage, IsImage};
ghost use Rattle.ato_interval.specs.declared.faults.RangeFault.TheVariants.{Wide};

use crate::{Interval, RangeFault};
use ato_frac::{Exact, absolute, at_most, greater, power};

impl<Q: Exact> Interval<Q> {
    /// The interval of the absolute values. `Wide` exactly where an end is below 0 and its opposite,
    /// the difference of 0 and the end, is refused.
    pub fn abs(&self) -> Result<Interval<Q>, RangeFault>
        ensures holds { IfOk result (HoldsImage Q.value abs_ℚ self.now) }
        ensures low_is { IfOk result (λ r. IsImage Q.value abs_ℚ self.now (Q.value r.low)) }
        ensures high_is { IfOk result (λ r. IsImage Q.value abs_ℚ self.now (Q.value r.high)) }
        ensures refused { MatchResult result
            (λ _. CanTurn Q.value Q.can_subtract self.now.low
            × CanTurn Q.value Q.can_subtract self.now.high)
            (λ e. (e ≡ Wide)
            × ¬ (CanTurn Q.value Q.can_subtract self.now.low
            × CanTurn Q.value Q.can_subtract self.now.high)) }
    {
        let low = end!(absolute(&self.low));
        let high = end!(absolute(&self.high));
        Ok(self.folded(Q::zero(), low, high))
    }

    /// The interval of the k-th powers. A power is k - 1 products from the left: the square, that
    /// times the number, and so on. `Wide` exactly where such a product is refused for an end.
    pub fn pow(&self, k: u32) -> Result<Interval<Q>, RangeFault>
        requires from_one { 1 ≤ k }
        requires to_sixteen { k ≤ 16 }
        ensures holds { IfOk result (HoldsImage Q.value (λ x. power_ℚ x k) self.now) }
        ensures low_is { IfOk result (λ r.
            IsImage Q.value (λ x. power_ℚ x k) self.now (Q.value r.low)) }
        ensures high_is { IfOk result (λ r.
            IsImage Q.value (λ x. power_ℚ x k) self.now (Q.value r.high)) }
        ensures refused { MatchResult result
            (λ _. CanRaise Q.value Q.can_multiply self.now.low k
            × CanRaise Q.value Q.can_multiply self.now.high k)
            (λ e. (e ≡ Wide)
            × (CannotRaise Q.value Q.can_multiply self.now.low k
            ⊎ CannotRaise Q.value Q.can_multiply self.now.high k)) }
    {
        let low = end!(power(&self.low, k));
        let high = end!(power(&self.high, k));
        if k % 2 == 0 {
            Ok(self.folded(Q::zero(), low, high))
        } else {
            Ok(Interval { low, high })
        }
    }

    /// The interval of a function that falls up to 0, is 0 there and rises from there, by its values
    /// `low` and `high` at the ends.
    fn folded(&self, zero: Q, low: Q, high: Q) -> Interval<Q>
        requires is_zero { Q.value zero ≈ℚ zero_ℚ }
        requires not_negative { zero_ℚ ≤ℚ Q.value low }
        requires rises { zero_ℚ ≤ℚ Q.value self.now.low → Q.value low ≤ℚ Q.value high }
        requires falls { Q.value self.now.high ≤ℚ zero_ℚ → Q.value high ≤ℚ Q.value low }
        ensures { IsFolded Q.value self.now low high result }
    {
        if at_most(&zero, &self.low) {
            return Interval { low, high };
        }
        if at_most(&self.high, &zero) {
            return Interval {
                low: high,
                high: low,
            };
        }
        Interval {
            low: zero,
            high: greater(low, high),
        }
    }
}
