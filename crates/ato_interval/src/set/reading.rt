//! Which values are in a set.
ghost use Rattle.std.specs.Prelude.{◌↔◌, MatchBool, MatchOption};
ghost use Rattle.ato_rational.specs.Rational.{ℚ, ◌≤ℚ◌};
ghost use Rattle.ato_interval.specs.Ends.{Holds, IsProper};
ghost use Rattle.ato_interval.specs.Passes.{Reaches};
ghost use Rattle.ato_interval.specs.Sets.{IsIn, AreRising};

use crate::{Interval, IntervalSet};
use ato_frac::{Exact, at_most};

impl<Q: Exact> IntervalSet<Q> {
    /// Whether each value of this set is in the other: each rational value, also where the type of
    /// the ends does not have it. It takes no memory.
    pub fn subset(&self, o: &IntervalSet<Q>) -> bool
        ensures { MatchBool result
            ((x : ℚ) → IsIn Q.value self.now x → IsIn Q.value o.now x)
            ((x : ℚ) × IsIn Q.value self.now x × ¬ IsIn Q.value o.now x) }
    {
        let mut left = self.parts();
        let mut right = o.parts();
        'parts: while let Some((part, later)) = left.split_first() {
            right = from_height(right, &part.low());
            if !covers(right, part) {
                return false;
            }
            left = later;
        }
        true
    }

    /// Whether a number's value is in the set. It takes no memory.
    pub fn holds(&self, value: &Q) -> bool
        ensures { MatchBool result
            (IsIn Q.value self.now (Q.value value.now))
            (¬ IsIn Q.value self.now (Q.value value.now)) }
    {
        match from_height(self.parts(), value).split_first() {
            Some((part, _)) => at_most(&part.low(), value),
            None => false,
        }
    }

    /// The least interval around the set. None exactly where the set is empty. It takes no memory.
    pub fn hull(&self) -> Option<Interval<Q>>
        ensures { MatchOption result
            ((x : ℚ) → ¬ IsIn Q.value self.now x)
            (λ r. ((x : ℚ) → IsIn Q.value self.now x → Holds Q.value r x)
            × IsIn Q.value self.now (Q.value r.low)
            × IsIn Q.value self.now (Q.value r.high)) }
    {
        let (first, _) = self.parts().split_first()?;
        let (last, _) = self.parts().split_last()?;
        Some(first.up_to(last))
    }
}

/// The parts from the first that ends at `height` or above.
fn from_height<'a, Q: Exact>(parts: &'a [Interval<Q>], height: &Q) -> &'a [Interval<Q>]
    requires { AreRising Q.value parts.now }
    ensures rising { AreRising Q.value result.now }
    ensures reaches { Reaches Q.value (Q.value height.now) result.now }
    ensures within { (x : ℚ) → IsIn Q.value result.now x → IsIn Q.value parts.now x }
    ensures kept { (x : ℚ) → Q.value height.now ≤ℚ x
        → IsIn Q.value parts.now x → IsIn Q.value result.now x }
{
    let mut rest = parts;
    'rest: while let Some((part, later)) = rest.split_first() {
        if at_most(height, &part.high()) {
            return rest;
        }
        rest = later;
    }
    rest
}

/// Whether the first part holds an interval at whose low end or above it ends. If not, a value of the
/// interval is in no part.
fn covers<Q: Exact>(parts: &[Interval<Q>], part: &Interval<Q>) -> bool
    requires rising { AreRising Q.value parts.now }
    requires reaches { Reaches Q.value (Q.value part.now.low) parts.now }
    ensures { MatchBool result
        ((x : ℚ) → Holds Q.value part.now x → IsIn Q.value parts.now x)
        ((x : ℚ) × Holds Q.value part.now x × ¬ IsIn Q.value parts.now x) }
{
    let low = part.low();
    let high = part.high();
    match parts.split_first() {
        Some((first, _)) => at_most(&first.low(), &low) && at_most(&high, &first.high()),
        None => false,
    }
}
