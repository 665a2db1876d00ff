//! The test of well made problems.
ghost use Rattle.std.specs.Prelude.{◌↔◌, IsTrue};
ghost use Rattle.std.specs.List.{All};
ghost use Rattle.ato_rational.specs.Rational.{◌≤ℚ◌};
ghost use Rattle.ato_frac.specs.Fractions.{value_of};
ghost use Rattle.ato_cert.specs.Problems.{AreRising, IsWellMade, IsWellMadeSlot};

use crate::comparing::is_at_most;
use crate::{Problem, Row, Slot};

/// Whether the numbers of rows rise.
fn are_rising(rows: &[Row]) -> bool
    ensures { IsTrue result ↔ AreRising rows.now }
{
    for at in 1..rows.len() {
        if rows[at].number <= rows[at - 1].number {
            return false;
        }
    }
    true
}

/// Whether no range of a row ends below its start.
fn have_ranges(rows: &[Row]) -> bool
    ensures { IsTrue result ↔ All (λ row. value_of row.low ≤ℚ value_of row.high) rows.now }
{
    rows.iter().all(|row| is_at_most(&row.low, &row.high))
}

fn is_well_made_slot(slot: &Slot) -> bool
    ensures { IsTrue result ↔ IsWellMadeSlot slot.now }
{
    let rows = slot.rows.as_slice();
    if !are_rising(rows) {
        return false;
    }
    if !have_ranges(rows) {
        return false;
    }
    is_at_most(&slot.low, &slot.high)
}

impl Problem {
    /// Whether the problem is well made: the row numbers of its slot rise, and no range of a row and
    /// no target ends below its start.
    pub fn is_well_made(&self) -> bool
        ensures { IsTrue result ↔ IsWellMade self.now }
    {
        match &self.slot {
            Some(slot) => is_well_made_slot(slot),
            None => true,
        }
    }
}
