//! Closed intervals and their ends.
ghost use Rattle.std.specs.Prelude.{◌≡◌, ◌⊎◌, ◌↔◌, MatchOption, MatchBool};
ghost use Rattle.ato_rational.specs.Rational.{ℚ, ◌≤ℚ◌, ◌<ℚ◌, zero_ℚ};
ghost use Rattle.ato_rational.specs.Ranges.{IsApartFromZero};
ghost use Rattle.ato_interval.specs.Ends.{Holds, IsProper};

/// The result of an operation on ends, or the way out with `Wide` where it is refused.
macro_rules! end {
    ($operation:expr) => {
        match $operation {
            Some(end) => end,
            None => return Err(RangeFault::Wide),
        }
    };
}

mod ends;
mod folds;
mod points;
mod products;
mod sums;
mod targets;

use ato_frac::{Exact, at_most, greater, lesser};
use std::alloc::AllocError;
use std::marker::Model;

/// All rational values from a low end to a high end that is not below it, both ends included.
#[derive(Debug, PartialEq, Eq)]
pub struct Interval<Q: Exact> {
    low: Q,
    high: Q,
}

impl<Q: Exact> Model for Interval<Q> {
    ghost use Rattle.ato_interval.specs.Ends.{Ends, IsProper};

    ghost Value = { Ends Q };

    ghost view = { λ it. record { low = it.low; high = it.high } };

    ghost invariant = { λ it. IsProper Q.value (record { low = it.low; high = it.high }) };

    ghost inverse = { λ ends. record { low = ends.low; high = ends.high } };
}

impl<Q: Exact> Clone for Interval<Q> {
    // a clone has the same ends
    ghost is_clone = { λ interval copy. copy ≡ interval };

    fn clone(&self) -> Result<Interval<Q>, AllocError> {
        Ok(*self)
    }
}

impl<Q: Exact> Copy for Interval<Q> {}

impl<Q: Exact> Interval<Q> {
    /// The interval from `low` to `high`. None exactly where `low` is above `high`.
    pub fn new(low: Q, high: Q) -> Option<Interval<Q>>
        ensures { MatchOption result
            (Q.value high <ℚ Q.value low)
            (λ r. IsProper Q.value r × (r.low ≡ low) × (r.high ≡ high)) }
    {
        if at_most(&low, &high) {
            Some(Interval { low, high })
        } else {
            None
        }
    }

    /// The low end.
    pub fn low(&self) -> Q
        ensures end { result ≡ self.now.low }
        ensures proper { IsProper Q.value self.now }
    {
        self.low
    }

    /// The high end.
    pub fn high(&self) -> Q
        ensures end { result ≡ self.now.high }
        ensures proper { IsProper Q.value self.now }
    {
        self.high
    }

    /// Whether the interval holds a number, or lies above or below it.
    pub fn holds(&self, value: &Q) -> bool
        ensures { MatchBool result
            (Holds Q.value self.now (Q.value value.now))
            ((Q.value value.now <ℚ Q.value self.now.low)
            ⊎ (Q.value self.now.high <ℚ Q.value value.now)) }
    {
        at_most(&self.low, value) && at_most(value, &self.high)
    }

    /// The interval of the values in this interval or in another one that begins in it.
    pub(crate) fn through(&self, o: &Interval<Q>) -> Interval<Q>
        requires begins { Q.value self.now.low ≤ℚ Q.value o.now.low }
        requires touches { Q.value o.now.low ≤ℚ Q.value self.now.high }
        ensures values { (x : ℚ) → Holds Q.value result x
            ↔ (Holds Q.value self.now x ⊎ Holds Q.value o.now x) }
        ensures low { result.low ≡ self.now.low }
        ensures proper { IsProper Q.value result }
    {
        let high = greater(self.high, o.high);
        Interval {
            low: self.low,
            high,
        }
    }

    /// The interval from this one's low end to the other's high end.
    pub(crate) fn up_to(&self, o: &Interval<Q>) -> Interval<Q>
        requires { Q.value self.now.low ≤ℚ Q.value o.now.high }
        ensures low { result.low ≡ self.now.low }
        ensures high { result.high ≡ o.now.high }
    {
        Interval {
            low: self.low,
            high: o.high,
        }
    }

    /// The interval of the values in both, if there is one.
    pub(crate) fn common(&self, o: &Interval<Q>) -> Option<Interval<Q>>
        ensures { MatchOption result
            ((x : ℚ) → Holds Q.value self.now x → ¬ Holds Q.value o.now x)
            (λ r. IsProper Q.value r
            × ((x : ℚ) → Holds Q.value r x
            ↔ (Holds Q.value self.now x × Holds Q.value o.now x))) }
    {
        let low = greater(self.low, o.low);
        let high = lesser(self.high, o.high);
        Interval::new(low, high)
    }

    /// Whether the interval holds 0.
    fn holds_zero(&self) -> bool
        ensures { MatchBool result
            (Holds Q.value self.now zero_ℚ)
            (IsApartFromZero (Q.value self.now.low) (Q.value self.now.high)) }
    {
        self.holds(&Q::zero())
    }
}
