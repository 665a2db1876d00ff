//! What the intervals of a relation's sides tell.
ghost use Rattle.ato_rational.specs.Rational.{ℚ, ◌≤ℚ◌, ◌<ℚ◌};
ghost use Rattle.ato_frac.specs.Fractions.{value_of};
ghost use Rattle.ato_interval.specs.Ends.{Holds};
ghost use Rattle.ato_interval.specs.Targets.{IsInOne};
ghost use Rattle.ato_eval.specs.Sides.{AreApart, IsSamePoint, Tells};

use crate::Judgement;
use ato_frac::{Frac, at_most};
use ato_interval::Interval;

/// Whether an interval lies in a target, or meets none of its ranges.
pub(crate) fn within(a: &Interval<Frac>, target: &[(Frac, Frac)]) -> Judgement
    ensures { Tells result
        ((x : ℚ) → Holds value_of a.now x → IsInOne value_of target.now x)
        ((x : ℚ) → Holds value_of a.now x → ¬ IsInOne value_of target.now x) }
{
    if a.is_covered_by(target) {
        return Judgement::True;
    }
    if a.meets_one_of(target) {
        return Judgement::Unknown;
    }
    Judgement::False
}

/// Whether each value of the one interval is less than each of the other, or none is.
pub(crate) fn less(a: &Interval<Frac>, b: &Interval<Frac>) -> Judgement
    ensures { Tells result
        (value_of a.now.high <ℚ value_of b.now.low)
        (value_of b.now.high ≤ℚ value_of a.now.low) }
{
    if !at_most(&b.low(), &a.high()) {
        return Judgement::True;
    }
    if at_most(&b.high(), &a.low()) {
        return Judgement::False;
    }
    Judgement::Unknown
}

/// Whether each value of the one interval is at most each of the other, or none is.
pub(crate) fn less_or_equal(a: &Interval<Frac>, b: &Interval<Frac>) -> Judgement
    ensures { Tells result
        (value_of a.now.high ≤ℚ value_of b.now.low)
        (value_of b.now.high <ℚ value_of a.now.low) }
{
    if at_most(&a.high(), &b.low()) {
        return Judgement::True;
    }
    if !at_most(&a.low(), &b.high()) {
        return Judgement::False;
    }
    Judgement::Unknown
}

/// Whether two intervals are the same single point, or do not meet.
#[tactic(auto, using(crate::proofs::SideLaws::same_point, crate::proofs::SideLaws::not_left, crate::proofs::SideLaws::not_right))]
pub(crate) fn equal(a: &Interval<Frac>, b: &Interval<Frac>) -> Judgement
    ensures { Tells result (IsSamePoint a.now b.now) (AreApart a.now b.now) }
{
    if !a.meets(b) {
        return Judgement::False;
    }
    if !a.is_point() {
        return Judgement::Unknown;
    }
    if !b.is_point() {
        return Judgement::Unknown;
    }
    Judgement::True
}
