//! The judgement of each relation, by the intervals of its sides.
ghost use Rattle.std.specs.Prelude.{◌≡◌, ◌≢◌, ◌∷◌, [], ℕ, length, MatchResult};
ghost use Rattle.ato_rational.specs.Rational.{ℚ};
ghost use Rattle.ato_expr.specs.declared.ops.Relation.TheVariants as relations;
ghost use Rattle.ato_expr.specs.Labels.{StopsFor};
ghost use Rattle.ato_expr.specs.Scratches.{HasRoom};
ghost use Rattle.ato_expr.specs.Tables.{AreNodes, HasEntries};
ghost use Rattle.ato_expr.specs.Values.{roots_of};
ghost use Rattle.ato_eval.specs.declared.judgement.Judgement.{Judgement};
ghost use Rattle.ato_eval.specs.declared.judgement.Judgement.TheVariants.{Unknown};
ghost use Rattle.ato_eval.specs.Corners.{narrowed};
ghost use Rattle.ato_eval.specs.Intervals.{GivesInterval, RefusesInterval};
ghost use Rattle.ato_eval.specs.Judgements.{ArePoints, HasInterval, IsInside, IsRight, Judges, judgement_of};

use crate::Judgement;
use crate::kept::interval_at;
use crate::pass::keep;
use crate::reason::Reason;
use crate::sides::{equal, less, less_or_equal, within};
use ato_base::List;
use ato_expr::{ExprTable, Relation, Scratch};
use ato_frac::Frac;
use ato_interval::Interval;

/// The interval of one side, or why the first node below it without one has none.
fn one_side(
    table: &ExprTable,
    node: u32,
    ranges: &[Interval<Frac>],
    high: &[bool],
    scratch: &mut Scratch,
) -> Result<Interval<Frac>, Reason>
    requires roots { AreNodes table.now (node ∷ []) }
    requires entries { HasEntries table.now (node ∷ []) ranges.now }
    requires room { HasRoom scratch.old (length table.now) }
    ensures side { MatchResult result
        (HasInterval table.now (narrowed ranges.now high.now) node)
        (StopsFor (GivesInterval (narrowed ranges.now high.now)) RefusesInterval table.now (node ∷ [])) }
    ensures room { HasRoom scratch.new (length table.now) }
{
    let roots = [node];
    match keep(table, &roots, ranges, high, scratch) {
        Ok(()) => Ok(interval_at(scratch, node)),
        Err(reason) => Err(reason),
    }
}

/// The intervals of two sides, or why the first node below them without one has none.
fn two_sides(
    table: &ExprTable,
    left: u32,
    right: u32,
    ranges: &[Interval<Frac>],
    high: &[bool],
    scratch: &mut Scratch,
) -> Result<(Interval<Frac>, Interval<Frac>), Reason>
    requires roots { AreNodes table.now (left ∷ right ∷ []) }
    requires entries { HasEntries table.now (left ∷ right ∷ []) ranges.now }
    requires room { HasRoom scratch.old (length table.now) }
    ensures sides { MatchResult result
        (λ r. HasInterval table.now (narrowed ranges.now high.now) left r.0
        × HasInterval table.now (narrowed ranges.now high.now) right r.1)
        (StopsFor (GivesInterval (narrowed ranges.now high.now)) RefusesInterval
        table.now (left ∷ right ∷ [])) }
    ensures room { HasRoom scratch.new (length table.now) }
{
    let roots = [left, right];
    match keep(table, &roots, ranges, high, scratch) {
        Ok(()) => {
            let first = interval_at(scratch, left);
            let second = interval_at(scratch, right);
            Ok((first, second))
        }
        Err(reason) => Err(reason),
    }
}

/// What is judged where the first node without an interval has none for a reason.
fn stopped(reason: Reason) -> Judgement
    ensures { result ≡ judgement_of reason }
{
    match reason {
        Reason::TooWide => Judgement::Wide,
        Reason::ByZero => Judgement::False,
        Reason::ZeroInside => Judgement::Unknown,
    }
}

/// The judgement of a node and a target.
fn judge_within(
    table: &ExprTable,
    node: u32,
    target: &List<(Frac, Frac)>,
    ranges: &[Interval<Frac>],
    high: &[bool],
    scratch: &mut Scratch,
) -> Judgement
    requires roots { AreNodes table.now (node ∷ []) }
    requires entries { HasEntries table.now (node ∷ []) ranges.now }
    requires room { HasRoom scratch.old (length table.now) }
    ensures judges { Judges table.now (narrowed ranges.now high.now) (relations.Within node target.now) result }
    ensures room { HasRoom scratch.new (length table.now) }
{
    match one_side(table, node, ranges, high, scratch) {
        Ok(side) => within(&side, target.as_slice()),
        Err(reason) => stopped(reason),
    }
}

/// The judgement of a node that is to be less than another.
fn judge_less(
    table: &ExprTable,
    left: u32,
    right: u32,
    ranges: &[Interval<Frac>],
    high: &[bool],
    scratch: &mut Scratch,
) -> Judgement
    requires roots { AreNodes table.now (left ∷ right ∷ []) }
    requires entries { HasEntries table.now (left ∷ right ∷ []) ranges.now }
    requires room { HasRoom scratch.old (length table.now) }
    ensures judges { Judges table.now (narrowed ranges.now high.now) (relations.Less left right) result }
    ensures room { HasRoom scratch.new (length table.now) }
{
    match two_sides(table, left, right, ranges, high, scratch) {
        Ok(sides) => less(&sides.0, &sides.1),
        Err(reason) => stopped(reason),
    }
}

/// The judgement of a node that is to be at most another.
fn judge_less_or_equal(
    table: &ExprTable,
    left: u32,
    right: u32,
    ranges: &[Interval<Frac>],
    high: &[bool],
    scratch: &mut Scratch,
) -> Judgement
    requires roots { AreNodes table.now (left ∷ right ∷ []) }
    requires entries { HasEntries table.now (left ∷ right ∷ []) ranges.now }
    requires room { HasRoom scratch.old (length table.now) }
    ensures judges { Judges table.now (narrowed ranges.now high.now) (relations.LessEq left right) result }
    ensures room { HasRoom scratch.new (length table.now) }
{
    match two_sides(table, left, right, ranges, high, scratch) {
        Ok(sides) => less_or_equal(&sides.0, &sides.1),
        Err(reason) => stopped(reason),
    }
}

/// The judgement of two nodes that are to be equal.
fn judge_equal(
    table: &ExprTable,
    left: u32,
    right: u32,
    ranges: &[Interval<Frac>],
    high: &[bool],
    scratch: &mut Scratch,
) -> Judgement
    requires roots { AreNodes table.now (left ∷ right ∷ []) }
    requires entries { HasEntries table.now (left ∷ right ∷ []) ranges.now }
    requires room { HasRoom scratch.old (length table.now) }
    ensures judges { Judges table.now (narrowed ranges.now high.now) (relations.Equal left right) result }
    ensures room { HasRoom scratch.new (length table.now) }
{
    match two_sides(table, left, right, ranges, high, scratch) {
        Ok(sides) => equal(&sides.0, &sides.1),
        Err(reason) => stopped(reason),
    }
}

/// The judgement of a node that is to have a value.
fn judge_defined(
    table: &ExprTable,
    node: u32,
    ranges: &[Interval<Frac>],
    high: &[bool],
    scratch: &mut Scratch,
) -> Judgement
    requires roots { AreNodes table.now (node ∷ []) }
    requires entries { HasEntries table.now (node ∷ []) ranges.now }
    requires room { HasRoom scratch.old (length table.now) }
    ensures judges { Judges table.now (narrowed ranges.now high.now) (relations.Defined node) result }
    ensures room { HasRoom scratch.new (length table.now) }
{
    match one_side(table, node, ranges, high, scratch) {
        Ok(_) => Judgement::True,
        Err(reason) => stopped(reason),
    }
}

/// The judgement of a relation over ranges. Where `high` names an end for a variable, its range is that one
/// point.
pub(crate) fn judge(
    table: &ExprTable,
    relation: &Relation,
    ranges: &[Interval<Frac>],
    high: &[bool],
    scratch: &mut Scratch,
) -> Judgement
    requires roots { AreNodes table.now (roots_of relation.now) }
    requires entries { HasEntries table.now (roots_of relation.now) ranges.now }
    requires room { HasRoom scratch.old (length table.now) }
    ensures judges { Judges table.now (narrowed ranges.now high.now) relation.now result }
    ensures room { HasRoom scratch.new (length table.now) }
{
    match relation {
        Relation::Within(node, target) => judge_within(table, *node, target, ranges, high, scratch),
        Relation::Less(left, right) => judge_less(table, *left, *right, ranges, high, scratch),
        Relation::LessEq(left, right) => {
            judge_less_or_equal(table, *left, *right, ranges, high, scratch)
        }
        Relation::Equal(left, right) => judge_equal(table, *left, *right, ranges, high, scratch),
        Relation::Defined(node) => judge_defined(table, *node, ranges, high, scratch),
    }
}
