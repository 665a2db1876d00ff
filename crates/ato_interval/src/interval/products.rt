//! Products and quotients of intervals.
ghost use Rattle.std.specs.Prelude.{◌≡◌, IfOk, MatchOption, MatchResult};
ghost use Rattle.ato_rational.specs.Rational.{◌≈ℚ◌, ◌*ℚ◌, ◌/ℚ◌, IsNotZero};
ghost use Rattle.ato_rational.specs.Ranges.{AtEnds, IsApartFromZero};
ghost use Rattle.ato_interval.specs.Refusals.{RefusesQuotient};
ghost use Rattle.ato_interval.specs.Results.{HoldsResults, IsResult};
ghost use Rattle.ato_interval.specs.declared.faults.RangeFault.TheVariants.{Wide};

use crate::interval::ends::around;
use crate::{Interval, RangeFault};
use ato_frac::{Divides, Exact};

/// The least interval around the four results of an operation on ends, or the way out with `Wide`.
macro_rules! four_ends {
    ($operation:path, $a:expr, $b:expr) => {{
        let low_low = end!($operation(&$a.low, &$b.low));
        let low_high = end!($operation(&$a.low, &$b.high));
        let high_low = end!($operation(&$a.high, &$b.low));
        let high_high = end!($operation(&$a.high, &$b.high));
        Ok(around(low_low, low_high, high_low, high_high))
    }};
}

impl<Q: Exact> Interval<Q> {
    /// The interval of the products, from the least to the greatest of the four products of ends.
    /// `Wide` exactly where one of these is refused.
    pub fn mul(&self, o: &Interval<Q>) -> Result<Interval<Q>, RangeFault>
        ensures holds { IfOk result (HoldsResults Q.value ◌*ℚ◌ self.now o.now) }
        ensures low_is { IfOk result (λ r. IsResult Q.value ◌*ℚ◌ self.now o.now (Q.value r.low)) }
        ensures high_is { IfOk result (λ r. IsResult Q.value ◌*ℚ◌ self.now o.now (Q.value r.high)) }
        ensures refused { MatchResult result
            (λ _. AtEnds Q.can_multiply self.now.low self.now.high o.now.low o.now.high)
            (λ e. (e ≡ Wide)
            × ¬ AtEnds Q.can_multiply self.now.low self.now.high o.now.low o.now.high) }
    {
        four_ends!(Q::times, self, o)
    }
}

impl<Q: Divides> Interval<Q> {
    /// The interval of the quotients, from the least to the greatest of the four quotients of ends.
    /// `HoldsZero` exactly where the divisor holds 0, and else `Wide` exactly where one of the four is
    /// refused.
    pub fn div(&self, o: &Interval<Q>) -> Result<Interval<Q>, RangeFault>
        ensures holds { IfOk result (HoldsResults Q.value ◌/ℚ◌ self.now o.now) }
        ensures low_is { IfOk result (λ r. IsResult Q.value ◌/ℚ◌ self.now o.now (Q.value r.low)) }
        ensures high_is { IfOk result (λ r. IsResult Q.value ◌/ℚ◌ self.now o.now (Q.value r.high)) }
        ensures refused { MatchResult result
            (λ _. IsApartFromZero (Q.value o.now.low) (Q.value o.now.high)
            × AtEnds Q.can_divide self.now.low self.now.high o.now.low o.now.high)
            (RefusesQuotient Q.value o.now
            (¬ AtEnds Q.can_divide self.now.low self.now.high o.now.low o.now.high)) }
    {
        if o.holds_zero() {
            return Err(RangeFault::HoldsZero);
        }
        self.quotients(o)
    }

    /// The interval of the quotients by an interval that does not hold 0.
    fn quotients(&self, o: &Interval<Q>) -> Result<Interval<Q>, RangeFault>
        requires { IsApartFromZero (Q.value o.now.low) (Q.value o.now.high) }
        ensures holds { IfOk result (HoldsResults Q.value ◌/ℚ◌ self.now o.now) }
        ensures low_is { IfOk result (λ r. IsResult Q.value ◌/ℚ◌ self.now o.now (Q.value r.low)) }
        ensures high_is { IfOk result (λ r. IsResult Q.value ◌/ℚ◌ self.now o.now (Q.value r.high)) }
        ensures refused { MatchResult result
            (λ _. AtEnds Q.can_divide self.now.low self.now.high o.now.low o.now.high)
            (λ e. (e ≡ Wide)
            × ¬ AtEnds Q.can_divide self.now.low self.now.high o.now.low o.now.high) }
    {
        four_ends!(quotient, self, o)
    }
}

/// The quotient by a number that is not 0.
fn quotient<Q: Divides>(x: &Q, y: &Q) -> Option<Q>
    requires { IsNotZero (Q.value y.now) }
    ensures { MatchOption result
        (¬ Q.can_divide x.now y.now)
        (λ r. Q.can_divide x.now y.now × (Q.value r ≈ℚ Q.value x.now /ℚ Q.value y.now)) }
{
    x.over(y).ok()
}
