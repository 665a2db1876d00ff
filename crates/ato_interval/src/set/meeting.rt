//! The values in two sets, in one pass over both.
ghost use Rattle.std.specs.Prelude.{◌≡◌, ◌⊎◌, ◌↔◌, [], IfOk, OnOk};
ghost use Rattle.ato_rational.specs.Rational.{ℚ, ◌<ℚ◌};
ghost use Rattle.ato_interval.specs.Ends.{Holds};
ghost use Rattle.ato_interval.specs.Sets.{IsIn, AreRising};

use crate::{Interval, IntervalSet};
use ato_base::{List, NoMemory};
use ato_frac::{Exact, at_most};

impl<Q: Exact> IntervalSet<Q> {
    /// The values that are in this set and in the other.
    pub fn meet(&self, o: &IntervalSet<Q>) -> Result<IntervalSet<Q>, NoMemory>
        ensures values { IfOk result (λ r. (x : ℚ) → IsIn Q.value r x
            ↔ (IsIn Q.value self.now x × IsIn Q.value o.now x)) }
        ensures rising { IfOk result (AreRising Q.value) }
    {
        let mut parts = List::new(self.alloc);
        put_common(&mut parts, self.parts(), o.parts())?;
        Ok(IntervalSet {
            alloc: self.alloc,
            parts,
        })
    }
}

/// Puts the common values of two rising lists of parts into an empty list.
fn put_common<Q: Exact>(
    parts: &mut List<Interval<Q>>,
    left: &[Interval<Q>],
    right: &[Interval<Q>],
) -> Result<(), NoMemory>
    requires empty { parts.old ≡ [] }
    requires left_rising { AreRising Q.value left.now }
    requires right_rising { AreRising Q.value right.now }
    ensures values { OnOk result ((x : ℚ) → IsIn Q.value parts.new x
        ↔ (IsIn Q.value left.now x × IsIn Q.value right.now x)) }
    ensures rising { OnOk result (AreRising Q.value parts.new) }
{
    let mut left_rest = left;
    let mut right_rest = right;
    'pairs: while let (Some((p, left_later)), Some((q, right_later))) = (
        left_rest.split_first(),
        right_rest.split_first(),
    ) {
        put_common_part(parts, p, q)?;
        if at_most(&p.high(), &q.high()) {
            left_rest = left_later;
        } else {
            right_rest = right_later;
        }
    }
    Ok(())
}

/// Puts the common values of two parts behind parts that lie below them.
fn put_common_part<Q: Exact>(
    parts: &mut List<Interval<Q>>,
    p: &Interval<Q>,
    q: &Interval<Q>,
) -> Result<(), NoMemory>
    requires rising { AreRising Q.value parts.old }
    requires below { (x y : ℚ) → IsIn Q.value parts.old x
        → Holds Q.value p.now y → Holds Q.value q.now y → x <ℚ y }
    ensures values { OnOk result ((x : ℚ) → IsIn Q.value parts.new x
        ↔ (IsIn Q.value parts.old x ⊎ (Holds Q.value p.now x × Holds Q.value q.now x))) }
    ensures rising { OnOk result (AreRising Q.value parts.new) }
{
    if let Some(common) = p.common(q) {
        parts.push(common)?;
    }
    Ok(())
}
