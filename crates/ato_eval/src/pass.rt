//! One pass over the nodes below some roots, in the table's order.
ghost use Rattle.std.specs.Prelude.{◌≡◌, ◌↔◌, ◌<◌, ◌≤◌, ℕ, length, slice_get, Contains, Some, MatchResult};
ghost use Rattle.ato_expr.specs.declared.ops.Op.TheVariants.{Var};
ghost use Rattle.ato_expr.specs.Labels.{IsRefused, StopsFor};
ghost use Rattle.ato_expr.specs.Scratches.{HasRoom, IsMarked};
ghost use Rattle.ato_expr.specs.Tables.{AreNodes, Entry, HasEntries, IsBelow};
ghost use Rattle.ato_eval.specs.Corners.{narrowed};
ghost use Rattle.ato_eval.specs.Intervals.{GivesInterval, RefusesInterval};
ghost use Rattle.ato_eval.specs.Judgements.{HasInterval};
ghost use Rattle.ato_eval.specs.Kept.{IsKept};

use crate::kept::operation;
use crate::reason::Reason;
use ato_expr::{ExprTable, Scratch, Stretch};
use ato_frac::Frac;
use ato_interval::Interval;

/// The interval of a node, where those of its children are kept.
fn interval_of(
    table: &ExprTable,
    node: u32,
    ranges: &[Interval<Frac>],
    high: &[bool],
    scratch: &Scratch,
) -> Result<Interval<Frac>, Reason>
    requires there { node < length table.now }
    requires entries { (v : ℕ) (e : Entry) → slice_get table.now node ≡ Some e → e.op ≡ Var v
        → v < length ranges.now }
    requires kept { (c : ℕ) (e : Entry) → slice_get table.now node ≡ Some e → Contains e.children c
        → IsKept table.now (narrowed ranges.now high.now) scratch.now.ends c }
    ensures { MatchResult result
        (HasInterval table.now (narrowed ranges.now high.now) node)
        (IsRefused (GivesInterval (narrowed ranges.now high.now)) RefusesInterval table.now node) }
{
    let (op, children) = table.entry(node);
    operation(op, scratch, children, ranges, high)
}

/// Works out the marked nodes of a stretch, which are those below some roots, from the first to the last;
/// their intervals are kept then. The first of them that has none ends it.
pub(crate) fn evaluate(
    table: &ExprTable,
    roots: &[u32],
    ranges: &[Interval<Frac>],
    high: &[bool],
    stretch: Stretch,
    scratch: &mut Scratch,
) -> Result<(), Reason>
    requires end { stretch.end ≤ length table.now }
    requires entries { HasEntries table.now roots.now ranges.now }
    requires room { HasRoom scratch.old (length table.now) }
    requires marks { (k : ℕ) → IsMarked stretch scratch.old.marks k ↔ IsBelow table.now roots.now k }
    ensures done { MatchResult result
        (λ _. (k : ℕ) → IsBelow table.now roots.now k
        → IsKept table.now (narrowed ranges.now high.now) scratch.new.ends k)
        (StopsFor (GivesInterval (narrowed ranges.now high.now)) RefusesInterval table.now roots.now) }
    ensures marks { scratch.new.marks ≡ scratch.old.marks }
    ensures room { HasRoom scratch.new (length table.now) }
{
    // the count tells that children stand before their parents
    let _count = table.count();
    for node in stretch.first..stretch.end {
        if scratch.is_marked(node) {
            let interval = interval_of(table, node, ranges, high, scratch)?;
            scratch.put(node, interval.low(), interval.high());
        }
    }
    Ok(())
}

/// Keeps the intervals of all nodes below some roots. The first of them, in the table's order, that has none
/// ends it. Where `high` names an end for a variable, its range is that one point.
pub(crate) fn keep(
    table: &ExprTable,
    roots: &[u32],
    ranges: &[Interval<Frac>],
    high: &[bool],
    scratch: &mut Scratch,
) -> Result<(), Reason>
    requires roots { AreNodes table.now roots.now }
    requires entries { HasEntries table.now roots.now ranges.now }
    requires room { HasRoom scratch.old (length table.now) }
    ensures done { MatchResult result
        (λ _. (k : ℕ) → IsBelow table.now roots.now k
        → IsKept table.now (narrowed ranges.now high.now) scratch.new.ends k)
        (StopsFor (GivesInterval (narrowed ranges.now high.now)) RefusesInterval table.now roots.now) }
    ensures room { HasRoom scratch.new (length table.now) }
{
    let stretch = scratch.mark(table, roots);
    evaluate(table, roots, ranges, high, stretch, scratch)
}
