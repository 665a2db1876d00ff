//! The tree that shows that no candidate is good.
ghost use Rattle.std.specs.Prelude.{◌≡◌, [], ◌∷◌, IfOk};
ghost use Rattle.std.specs.List.{All};
ghost use Rattle.ato_cert.specs.Problems.{AreRising};
ghost use Rattle.ato_cert.specs.Selection.{FailsAt};
ghost use Rattle.ato_cert.specs.Justified.{LiesInTarget};
ghost use Rattle.ato_search.specs.Searching.{IsRefutation};
ghost use Rattle.ato_cert.specs.declared.cert.PickTree.TheVariants as variants;

use ato_base::{List, NoMemory};
use ato_cert::{PickTree, Row, Slot, halves, is_at_most};
use ato_frac::{Exact, Frac};
use std::alloc::Global;

/// The fraction that selects an end of a range outside the target: 0 the low end, 1 the high one.
fn outside(slot: &Slot, row: &Row) -> Frac
    requires { ¬ LiesInTarget slot.now row.now }
    ensures { FailsAt slot.now (row.now ∷ []) result }
{
    if is_at_most(&slot.low, &row.low) {
        Frac::one()
    } else {
        Frac::zero()
    }
}

/// A line on the check at the points that a fraction selects.
fn failing(alloc: Global, t: Frac) -> Result<PickTree, NoMemory>
    ensures { IfOk result (λ tree. tree ≡ variants.Fails 1 (t ∷ [])) }
{
    let mut point = List::new(alloc);
    point.push(t)?;
    Ok(PickTree::Fails { check: 1, point })
}

/// The tree of one row, which lies outside the target.
fn refute_row(alloc: Global, slot: &Slot, row: &Row) -> Result<PickTree, NoMemory>
    requires { ¬ LiesInTarget slot.now row.now }
    ensures { IfOk result (IsRefutation slot.now (row.now ∷ [])) }
{
    failing(alloc, outside(slot, row))
}

/// The tree of rows that all lie outside the target, which are divided at the middle down to one row.
pub(crate) fn refute(alloc: Global, slot: &Slot, rows: &[Row]) -> Result<PickTree, NoMemory>
    requires rising { AreRising rows.now }
    requires outside { All (λ row. ¬ LiesInTarget slot.now row) rows.now }
    ensures { IfOk result (IsRefutation slot.now rows.now) }
{
    match rows {
        [] => Ok(PickTree::Empty(1)),
        [row] => refute_row(alloc, slot, row),
        _ => {
            let (low, number, high) = halves(rows);
            let low = refute(alloc, slot, low)?;
            let high = refute(alloc, slot, high)?;
            PickTree::divided(alloc, 1, number, low, high)
        }
    }
}
