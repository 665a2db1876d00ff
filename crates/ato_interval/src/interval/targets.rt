//! An interval against ranges in any order, which may overlap and touch. No memory is taken.
ghost use Rattle.std.specs.Prelude.{◌≡◌, MatchBool};
ghost use Rattle.ato_rational.specs.Rational.{ℚ};
ghost use Rattle.ato_rational.specs.Ranges.{IsWithin};
ghost use Rattle.ato_interval.specs.Ends.{Holds};
ghost use Rattle.ato_interval.specs.Targets.{IsInOne, GoesOn, EndsIn};

use crate::Interval;
use ato_frac::{Exact, at_most};

impl<Q: Exact> Interval<Q> {
    /// Whether some value lies in this interval and in the other.
    pub fn meets(&self, o: &Interval<Q>) -> bool
        ensures { MatchBool result
            ((x : ℚ) × Holds Q.value self.now x × Holds Q.value o.now x)
            ((x : ℚ) → Holds Q.value self.now x → ¬ Holds Q.value o.now x) }
    {
        self.common(o).is_some()
    }

    /// Whether each value of the interval lies in one of some ranges: each rational value, also
    /// where the type of the ends does not have it. The ranges may stand in any order, overlap and
    /// touch; one whose low end is above its high end has no values. It takes no memory.
    ///
    /// The interval has to begin in a range, and wherever a range ends inside it another one has to
    /// go on. So it takes at most one pass for each range.
    pub fn is_covered_by(&self, ranges: &[(Q, Q)]) -> bool
        ensures { MatchBool result
            ((x : ℚ) → Holds Q.value self.now x → IsInOne Q.value ranges.now x)
            ((x : ℚ) × Holds Q.value self.now x × ¬ IsInOne Q.value ranges.now x) }
    {
        let mut rest = ranges;
        'rest: while let Some((range, later)) = rest.split_first() {
            let (_, end) = *range;
            if self.has_end_of(range) && !goes_on(ranges, &end) {
                return false;
            }
            rest = later;
        }
        let low = self.low();
        is_in_one(ranges, &low)
    }

    /// Whether some value of the interval lies in one of some ranges, which may stand in any order. It
    /// takes no memory.
    pub fn meets_one_of(&self, ranges: &[(Q, Q)]) -> bool
        ensures { MatchBool result
            ((x : ℚ) × Holds Q.value self.now x × IsInOne Q.value ranges.now x)
            ((x : ℚ) → Holds Q.value self.now x → ¬ IsInOne Q.value ranges.now x) }
    {
        let mut rest = ranges;
        'rest: while let Some((range, later)) = rest.split_first() {
            if self.meets_range(range) {
                return true;
            }
            rest = later;
        }
        false
    }

    /// Whether a range has values and ends in this interval, below its high end.
    fn has_end_of(&self, range: &(Q, Q)) -> bool
        ensures { MatchBool result
            (EndsIn Q.value (Q.value self.now.low) (Q.value self.now.high) range.now)
            (¬ EndsIn Q.value (Q.value self.now.low) (Q.value self.now.high) range.now) }
    {
        let (begin, end) = *range;
        at_most(&begin, &end) && self.holds(&end) && !at_most(&self.high, &end)
    }

    /// Whether some value of the interval lies in a range.
    fn meets_range(&self, range: &(Q, Q)) -> bool
        ensures { MatchBool result
            ((x : ℚ) × Holds Q.value self.now x
            × IsWithin (Q.value range.now.0) (Q.value range.now.1) x)
            ((x : ℚ) → Holds Q.value self.now x
            → ¬ IsWithin (Q.value range.now.0) (Q.value range.now.1) x) }
    {
        let (begin, end) = *range;
        match Interval::new(begin, end) {
            Some(o) => self.meets(&o),
            None => false,
        }
    }
}

/// Whether a number lies in one of the ranges.
fn is_in_one<Q: Exact>(ranges: &[(Q, Q)], number: &Q) -> bool
    ensures { MatchBool result
        (IsInOne Q.value ranges.now (Q.value number.now))
        (¬ IsInOne Q.value ranges.now (Q.value number.now)) }
{
    let mut rest = ranges;
    'rest: while let Some((range, later)) = rest.split_first() {
        let (begin, end) = *range;
        if at_most(&begin, number) && at_most(number, &end) {
            return true;
        }
        rest = later;
    }
    false
}

/// Whether one of the ranges begins at a number or below, and ends above it.
fn goes_on<Q: Exact>(ranges: &[(Q, Q)], number: &Q) -> bool
    ensures { MatchBool result
        (GoesOn Q.value ranges.now (Q.value number.now))
        (¬ GoesOn Q.value ranges.now (Q.value number.now)) }
{
    let mut rest = ranges;
    'rest: while let Some((range, later)) = rest.split_first() {
        let (begin, end) = *range;
        if at_most(&begin, number) && !at_most(&end, number) {
            return true;
        }
        rest = later;
    }
    false
}
