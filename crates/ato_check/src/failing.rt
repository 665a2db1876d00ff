//! The test whether a slot's check fails at the points that a fraction selects.
ghost use Rattle.std.specs.Prelude.{◌≡◌, ◌⊎◌, ◌↔◌, IsTrue, MatchOption};
ghost use Rattle.ato_rational.specs.Rational.{◌≈ℚ◌, ◌<ℚ◌, zero_ℚ, one_ℚ};
ghost use Rattle.ato_frac.specs.Fractions.{value_of};
ghost use Rattle.ato_cert.specs.Selection.{IsBetween, IsSelected, FailsAt};
ghost use Rattle.ato_check.specs.Hulls.{Widens, SelectsHull, LiesOutside};

use ato_cert::{Row, Slot};
use ato_frac::{Exact, Frac, greater, lesser};
use std::cmp::Ordering;

/// The least and the greatest of some points.
#[derive(Clone, Copy)]
struct Hull {
    least: Frac,
    greatest: Frac,
}

/// Whether a fraction is less than another.
fn is_below(a: &Frac, b: &Frac) -> bool
    ensures { IsTrue result ↔ (value_of a.now <ℚ value_of b.now) }
{
    a.compare(b) == Ordering::Less
}

/// Whether a fraction is 0.
fn is_zero(t: &Frac) -> bool
    ensures { IsTrue result ↔ (value_of t.now ≈ℚ zero_ℚ) }
{
    t.compare(&Frac::zero()) == Ordering::Equal
}

/// Whether a fraction is 1.
fn is_one(t: &Frac) -> bool
    ensures { IsTrue result ↔ (value_of t.now ≈ℚ one_ℚ) }
{
    t.compare(&Frac::one()) == Ordering::Equal
}

/// Whether a fraction is above 0 and below 1.
fn is_proper(t: &Frac) -> bool
    ensures { IsTrue result ↔ ((zero_ℚ <ℚ value_of t.now) × (value_of t.now <ℚ one_ℚ)) }
{
    is_below(&Frac::zero(), t) && is_below(t, &Frac::one())
}

/// low + t·(high - low), where no operation is refused.
fn between(t: &Frac, row: &Row) -> Option<Frac>
    ensures { MatchOption result
        ((point : Frac) → ¬ IsBetween t.now row.now point)
        (IsBetween t.now row.now) }
{
    let width = row.high.minus(&row.low)?;
    let part = t.times(&width)?;
    row.low.plus(&part)
}

/// The point of a row's range that a fraction selects, if there is one.
fn selected(t: &Frac, row: &Row) -> Option<Frac>
    ensures { MatchOption result
        ((point : Frac) → ¬ IsSelected t.now row.now point)
        (IsSelected t.now row.now) }
{
    if is_zero(t) {
        Some(row.low)
    } else if is_one(t) {
        Some(row.high)
    } else if is_proper(t) {
        between(t, row)
    } else {
        None
    }
}

/// The hull of some points and one more.
fn widened(found: Option<Hull>, point: Frac) -> Hull
    ensures { Widens found point result }
{
    match found {
        Some(hull) => Hull {
            least: lesser(hull.least, point),
            greatest: greater(hull.greatest, point),
        },
        None => Hull {
            least: point,
            greatest: point,
        },
    }
}

/// The hull of the points that a fraction selects in rows: None for no row, and where a row has no
/// such point.
fn hull_of(rows: &[Row], t: &Frac) -> Option<Hull>
    ensures { MatchOption result
        ((least greatest : Frac) → ¬ SelectsHull rows.now t.now least greatest)
        (λ found. SelectsHull rows.now t.now found.least found.greatest) }
{
    let mut found = None;
    for row in rows {
        let point = selected(t, row)?;
        found = Some(widened(found, point));
    }
    found
}

/// Whether a hull lies below or above the target of a slot's check.
fn lies_outside(slot: &Slot, hull: &Hull) -> bool
    ensures { IsTrue result ↔ LiesOutside slot.now hull.now.least hull.now.greatest }
{
    is_below(&hull.greatest, &slot.low) || is_below(&slot.high, &hull.least)
}

/// Whether the slot's check fails at the points that a fraction, from 0 to 1, selects in rows.
pub(crate) fn fails_at(slot: &Slot, rows: &[Row], t: &Frac) -> bool
    ensures { IsTrue result ↔ FailsAt slot.now rows.now t.now }
{
    match hull_of(rows, t) {
        Some(hull) => lies_outside(slot, &hull),
        None => false,
    }
}
