//! The union of two sets, in one pass over both.
ghost use Rattle.std.specs.Prelude.{◌≡◌, ◌⊎◌, ◌↔◌, [], IfOk, OnOk, MatchOption};
ghost use Rattle.ato_rational.specs.Rational.{ℚ};
ghost use Rattle.ato_interval.specs.Sets.{IsIn, AreRising};
ghost use Rattle.ato_interval.specs.Passes.{TakesLowest};

use crate::{Interval, IntervalSet};
use ato_base::{List, NoMemory};
use ato_frac::{Exact, at_most};

impl<Q: Exact> IntervalSet<Q> {
    /// The values that are in this set or in the other. Parts that meet or touch become one.
    pub fn union(&self, o: &IntervalSet<Q>) -> Result<IntervalSet<Q>, NoMemory>
        ensures values { IfOk result (λ r. (x : ℚ) → IsIn Q.value r x
            ↔ (IsIn Q.value self.now x ⊎ IsIn Q.value o.now x)) }
        ensures rising { IfOk result (AreRising Q.value) }
    {
        let mut parts = List::new(self.alloc);
        join(&mut parts, self.parts(), o.parts())?;
        Ok(IntervalSet {
            alloc: self.alloc,
            parts,
        })
    }
}

/// Puts the union of two rising lists of parts into an empty list.
fn join<Q: Exact>(
    parts: &mut List<Interval<Q>>,
    left: &[Interval<Q>],
    right: &[Interval<Q>],
) -> Result<(), NoMemory>
    requires empty { parts.old ≡ [] }
    requires left_rising { AreRising Q.value left.now }
    requires right_rising { AreRising Q.value right.now }
    ensures values { OnOk result ((x : ℚ) → IsIn Q.value parts.new x
        ↔ (IsIn Q.value left.now x ⊎ IsIn Q.value right.now x)) }
    ensures rising { OnOk result (AreRising Q.value parts.new) }
{
    let Some((first, mut left_rest, mut right_rest)) = take_lowest(left, right) else {
        return Ok(())
    };
    let mut current = *first;
    'taken: while let Some((part, left_later, right_later)) = take_lowest(left_rest, right_rest) {
        if at_most(&part.low(), &current.high()) {
            current = current.through(part);
        } else {
            parts.push(current)?;
            current = *part;
        }
        left_rest = left_later;
        right_rest = right_later;
    }
    parts.push(current)?;
    Ok(())
}

/// The first part of one of two rising lists, the one with the lesser low end, and both lists without
/// it.
fn take_lowest<'a, Q: Exact>(
    left: &'a [Interval<Q>],
    right: &'a [Interval<Q>],
) -> Option<(&'a Interval<Q>, &'a [Interval<Q>], &'a [Interval<Q>])>
    requires left_rising { AreRising Q.value left.now }
    requires right_rising { AreRising Q.value right.now }
    ensures { MatchOption result
        ((left.now ≡ []) × (right.now ≡ []))
        (λ taken. TakesLowest Q.value left.now right.now taken.0.now taken.1.now taken.2.now) }
{
    match (left.split_first(), right.split_first()) {
        (Some((p, left_rest)), Some((q, right_rest))) => {
            if at_most(&p.low(), &q.low()) {
                Some((p, left_rest, right))
            } else {
                Some((q, left, right_rest))
            }
        }
        (Some((p, left_rest)), None) => Some((p, left_rest, right)),
        (None, Some((q, right_rest))) => Some((q, left, right_rest)),
        (None, None) => None,
    }
}
