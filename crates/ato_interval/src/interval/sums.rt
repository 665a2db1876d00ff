//! Sums and differences of intervals, and the lesser and the greater of two.
ghost use Rattle.std.specs.Prelude.{◌≡◌, IsOk, IfOk, MatchResult};
ghost use Rattle.ato_rational.specs.Rational.{◌+ℚ◌, ◌-ℚ◌, min_ℚ, max_ℚ};
ghost use Rattle.ato_interval.specs.Results.{HoldsResults, IsResult};
ghost use Rattle.ato_interval.specs.declared.faults.RangeFault.TheVariants.{Wide};

use crate::{Interval, RangeFault};
use ato_frac::{Exact, greater, lesser};

impl<Q: Exact> Interval<Q> {
    /// The interval of the sums. `Wide` exactly where the sum of the two low or of the two high ends is
    /// refused.
    pub fn add(&self, o: &Interval<Q>) -> Result<Interval<Q>, RangeFault>
        ensures holds { IfOk result (HoldsResults Q.value ◌+ℚ◌ self.now o.now) }
        ensures low_is { IfOk result (λ r. IsResult Q.value ◌+ℚ◌ self.now o.now (Q.value r.low)) }
        ensures high_is { IfOk result (λ r. IsResult Q.value ◌+ℚ◌ self.now o.now (Q.value r.high)) }
        ensures refused { MatchResult result
            (λ _. Q.can_add self.now.low o.now.low × Q.can_add self.now.high o.now.high)
            (λ e. (e ≡ Wide)
            × ¬ (Q.can_add self.now.low o.now.low × Q.can_add self.now.high o.now.high)) }
    {
        let low = end!(self.low.plus(&o.low));
        let high = end!(self.high.plus(&o.high));
        Ok(Interval { low, high })
    }

    /// The interval of the differences. `Wide` exactly where the difference of the low end and the
    /// other's high end, or of the high end and the other's low end, is refused.
    pub fn sub(&self, o: &Interval<Q>) -> Result<Interval<Q>, RangeFault>
        ensures holds { IfOk result (HoldsResults Q.value ◌-ℚ◌ self.now o.now) }
        ensures low_is { IfOk result (λ r. IsResult Q.value ◌-ℚ◌ self.now o.now (Q.value r.low)) }
        ensures high_is { IfOk result (λ r. IsResult Q.value ◌-ℚ◌ self.now o.now (Q.value r.high)) }
        ensures refused { MatchResult result
            (λ _. Q.can_subtract self.now.low o.now.high × Q.can_subtract self.now.high o.now.low)
            (λ e. (e ≡ Wide)
            × ¬ (Q.can_subtract self.now.low o.now.high × Q.can_subtract self.now.high o.now.low)) }
    {
        let low = end!(self.low.minus(&o.high));
        let high = end!(self.high.minus(&o.low));
        Ok(Interval { low, high })
    }

    /// The interval of the lesser of two values. It is never refused.
    pub fn min(&self, o: &Interval<Q>) -> Result<Interval<Q>, RangeFault>
        ensures given { IsOk result }
        ensures holds { IfOk result (HoldsResults Q.value min_ℚ self.now o.now) }
        ensures low_is { IfOk result (λ r. IsResult Q.value min_ℚ self.now o.now (Q.value r.low)) }
        ensures high_is { IfOk result (λ r. IsResult Q.value min_ℚ self.now o.now (Q.value r.high)) }
    {
        let low = lesser(self.low, o.low);
        let high = lesser(self.high, o.high);
        Ok(Interval { low, high })
    }

    /// The interval of the greater of two values. It is never refused.
    pub fn max(&self, o: &Interval<Q>) -> Result<Interval<Q>, RangeFault>
        ensures given { IsOk result }
        ensures holds { IfOk result (HoldsResults Q.value max_ℚ self.now o.now) }
        ensures low_is { IfOk result (λ r. IsResult Q.value max_ℚ self.now o.now (Q.value r.low)) }
        ensures high_is { IfOk result (λ r. IsResult Q.value max_ℚ self.now o.now (Q.value r.high)) }
    {
        let low = greater(self.low, o.low);
        let high = greater(self.high, o.high);
        Ok(Interval { low, high })
    }
}
