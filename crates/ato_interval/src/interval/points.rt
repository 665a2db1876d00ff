//! Intervals of one point, opposites, and the least interval around two.
ghost use Rattle.std.specs.Prelude.{◌≡◌, ◌⊎◌, MatchBool};
ghost use Rattle.ato_rational.specs.Rational.{ℚ, ◌<ℚ◌, neg_ℚ};
ghost use Rattle.ato_frac.specs.Fractions.{value_of};
ghost use Rattle.ato_interval.specs.Ends.{Holds};
ghost use Rattle.ato_interval.specs.Points.{point, IsPoint, IsOnlyZero};
ghost use Rattle.ato_interval.specs.Results.{HoldsImage, IsImage};

use crate::Interval;
use ato_frac::{Exact, Frac, at_most, greater, lesser};

impl<Q: Exact> Interval<Q> {
    /// The interval of one number.
    #[tactic(auto, using(crate::proofs::PointLaws::at_itself))]
    pub fn point(number: Q) -> Interval<Q>
        ensures { result ≡ point number }
    {
        Interval {
            low: number,
            high: number,
        }
    }

    /// Whether the interval has one value alone.
    #[tactic(auto, using(crate::proofs::PointLaws::one_told))]
    pub fn is_point(&self) -> bool
        ensures { MatchBool result
            (IsPoint Q.value self.now)
            (Q.value self.now.low <ℚ Q.value self.now.high) }
    {
        at_most(&self.high, &self.low)
    }

    /// Whether the interval has the value 0 and no other.
    pub fn is_zero(&self) -> bool
        ensures { MatchBool result
            (IsOnlyZero Q.value self.now)
            (¬ IsOnlyZero Q.value self.now) }
    {
        let zero = Q::zero();
        at_most(&zero, &self.low) && at_most(&self.high, &zero)
    }

    /// The least interval around this one and another.
    pub fn hull(&self, o: &Interval<Q>) -> Interval<Q>
        ensures own { (x : ℚ) → Holds Q.value self.now x → Holds Q.value result x }
        ensures other { (x : ℚ) → Holds Q.value o.now x → Holds Q.value result x }
        ensures low_is { (result.low ≡ self.now.low) ⊎ (result.low ≡ o.now.low) }
        ensures high_is { (result.high ≡ self.now.high) ⊎ (result.high ≡ o.now.high) }
    {
        let low = lesser(self.low, o.low);
        let high = greater(self.high, o.high);
        Interval { low, high }
    }
}

impl Interval<Frac> {
    /// The interval of the opposites. It is never refused.
    pub fn opposite(&self) -> Interval<Frac>
        ensures holds { HoldsImage value_of neg_ℚ self.now result }
        ensures low_is { IsImage value_of neg_ℚ self.now (value_of result.low) }
        ensures high_is { IsImage value_of neg_ℚ self.now (value_of result.high) }
    {
        let low = self.high.opposite();
        let high = self.low.opposite();
        Interval { low, high }
    }
}
