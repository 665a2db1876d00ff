//! Single operations over intervals, with the reason where there is none.
ghost use Rattle.std.specs.Prelude.{◌≡◌, ◌∷◌, [], List, ◌≤◌, MatchResult};
ghost use Rattle.ato_rational.specs.Rational.{min_ℚ, max_ℚ};
ghost use Rattle.ato_frac.specs.declared.fraction.Frac.{Frac};
ghost use Rattle.ato_interval.specs.Ends.{Ends};
ghost use Rattle.ato_expr.specs.declared.ops.Op.TheVariants as ops;
ghost use Rattle.ato_eval.specs.declared.reason.Reason.TheVariants.{TooWide};
ghost use Rattle.ato_eval.specs.Intervals.{CanSum, GivesInterval, IsSpan, IsSum, RefusesInterval};

use crate::reason::Reason;
use ato_frac::Frac;
use ato_interval::{Interval, RangeFault};

/// The sum of two.
pub(crate) fn sum(a: &Interval<Frac>, b: &Interval<Frac>) -> Result<Interval<Frac>, Reason>
    ensures { MatchResult result
        (IsSum a.now b.now)
        (λ reason. (reason ≡ TooWide) × ¬ CanSum a.now b.now) }
{
    match a.add(b) {
        Ok(sum) => Ok(sum),
        Err(_) => Err(Reason::TooWide),
    }
}

/// The lesser of two.
pub(crate) fn lesser(a: &Interval<Frac>, b: &Interval<Frac>) -> Interval<Frac>
    ensures { IsSpan min_ℚ a.now b.now result }
{
    match a.min(b) {
        Ok(lesser) => lesser,
        Err(_) => unreachable!(),
    }
}

/// The greater of two.
pub(crate) fn greater(a: &Interval<Frac>, b: &Interval<Frac>) -> Interval<Frac>
    ensures { IsSpan max_ℚ a.now b.now result }
{
    match a.max(b) {
        Ok(greater) => greater,
        Err(_) => unreachable!(),
    }
}

/// The product.
pub(crate) fn product(a: &Interval<Frac>, b: &Interval<Frac>) -> Result<Interval<Frac>, Reason>
    ensures { (ranges : List (Ends Frac)) → MatchResult result
        (GivesInterval ranges ops.Product (a.now ∷ b.now ∷ []))
        (RefusesInterval ops.Product (a.now ∷ b.now ∷ [])) }
{
    match a.mul(b) {
        Ok(product) => Ok(product),
        Err(_) => Err(Reason::TooWide),
    }
}

/// The quotient.
pub(crate) fn quotient(a: &Interval<Frac>, b: &Interval<Frac>) -> Result<Interval<Frac>, Reason>
    ensures { (ranges : List (Ends Frac)) → MatchResult result
        (GivesInterval ranges ops.Quotient (a.now ∷ b.now ∷ []))
        (RefusesInterval ops.Quotient (a.now ∷ b.now ∷ [])) }
{
    match a.div(b) {
        Ok(quotient) => Ok(quotient),
        Err(RangeFault::Wide) => Err(Reason::TooWide),
        Err(RangeFault::HoldsZero) => {
            if b.is_zero() {
                Err(Reason::ByZero)
            } else {
                Err(Reason::ZeroInside)
            }
        }
    }
}

/// The opposite.
pub(crate) fn opposite(a: &Interval<Frac>) -> Interval<Frac>
    ensures { (ranges : List (Ends Frac)) → GivesInterval ranges ops.Neg (a.now ∷ []) result }
{
    a.opposite()
}

/// A power.
pub(crate) fn power(a: &Interval<Frac>, exponent: u32) -> Result<Interval<Frac>, Reason>
    requires from_one { 1 ≤ exponent }
    requires to_sixteen { exponent ≤ 16 }
    ensures { (ranges : List (Ends Frac)) → MatchResult result
        (GivesInterval ranges (ops.Power exponent) (a.now ∷ []))
        (RefusesInterval (ops.Power exponent) (a.now ∷ [])) }
{
    match a.pow(exponent) {
        Ok(power) => Ok(power),
        Err(_) => Err(Reason::TooWide),
    }
}

/// The absolute value.
pub(crate) fn absolute(a: &Interval<Frac>) -> Result<Interval<Frac>, Reason>
    ensures { (ranges : List (Ends Frac)) → MatchResult result
        (GivesInterval ranges ops.Abs (a.now ∷ []))
        (RefusesInterval ops.Abs (a.now ∷ [])) }
{
    match a.abs() {
        Ok(absolute) => Ok(absolute),
        Err(_) => Err(Reason::TooWide),
    }
}
