//! A corner of the ranges at which a relation may fail.
ghost use Rattle.std.specs.Prelude.{◌≡◌, ◌≢◌, ◌∷◌, [], ◌<◌, ◌≤◌, ℕ, length, Contains, MatchBool, MatchResult};
ghost use Rattle.ato_frac.specs.declared.fraction.Frac.{Frac};
ghost use Rattle.ato_interval.specs.Ends.{Ends};
ghost use Rattle.ato_expr.specs.declared.ops.Relation.TheVariants as relations;
ghost use Rattle.ato_expr.specs.Labels.{StopsFor};
ghost use Rattle.ato_expr.specs.Scratches.{HasRoom};
ghost use Rattle.ato_expr.specs.Tables.{AreNodes, HasEntries};
ghost use Rattle.ato_expr.specs.Values.{roots_of};
ghost use Rattle.ato_eval.specs.declared.judgement.Judgement.TheVariants.{Wide};
ghost use Rattle.ato_eval.specs.declared.reason.Reason.TheVariants.{TooWide};
ghost use Rattle.ato_eval.specs.declared.reached.Reached.TheVariants.{Fails};
ghost use Rattle.ato_eval.specs.Corners.{narrowed};
ghost use Rattle.ato_eval.specs.Intervals.{GivesInterval, RefusesInterval};
ghost use Rattle.ato_eval.specs.Judgements.{HasInterval, Judges};
ghost use Rattle.ato_eval.specs.Plain.{FailsAtCorner};
ghost use Rattle.ato_eval.specs.Reaches.{Reaches, named};

use crate::judging::judge;
use crate::leaning::lean_all;
use crate::pass::evaluate;
use crate::reason::Reason;
use crate::wanted::{want, wanted};
use crate::{Judgement, Reached};
use ato_base::List;
use ato_expr::{ExprTable, Relation, Scratch};
use ato_frac::{Frac, at_most};
use ato_interval::Interval;

/// Wants the end of a node's interval that is in no range of a target, the low one first.
fn aim_within(scratch: &mut Scratch, node: u32, target: &List<(Frac, Frac)>)
    requires { node < length scratch.old.ends }
    ensures ends { length scratch.new.ends ≡ length scratch.old.ends }
    ensures marks { scratch.new.marks ≡ scratch.old.marks }
{
    let (interval, _) = wanted(scratch, node);
    let low = Interval::point(interval.low());
    want(scratch, node, low.meets_one_of(target.as_slice()));
}

/// Wants the high end of the one node's interval and the low one of the other's, or the other way round.
fn aim_apart(scratch: &mut Scratch, left: u32, right: u32, left_high: bool)
    requires left { left < length scratch.old.ends }
    requires right { right < length scratch.old.ends }
    ensures ends { length scratch.new.ends ≡ length scratch.old.ends }
    ensures marks { scratch.new.marks ≡ scratch.old.marks }
{
    want(scratch, left, left_high);
    want(scratch, right, !left_high);
}

/// Wants ends of two nodes' intervals that are not equal, where there are such.
fn aim_unequal(scratch: &mut Scratch, left: u32, right: u32)
    requires left { left < length scratch.old.ends }
    requires right { right < length scratch.old.ends }
    ensures ends { length scratch.new.ends ≡ length scratch.old.ends }
    ensures marks { scratch.new.marks ≡ scratch.old.marks }
{
    let (first, _) = wanted(scratch, left);
    let (second, _) = wanted(scratch, right);
    let left_high = !at_most(&first.high(), &second.low());
    aim_apart(scratch, left, right, left_high);
}

/// Wants ends of the sides' intervals at which a relation that is not sure fails.
fn aim(relation: &Relation, scratch: &mut Scratch)
    requires { (k : ℕ) → Contains (roots_of relation.now) k → k < length scratch.old.ends }
    ensures ends { length scratch.new.ends ≡ length scratch.old.ends }
    ensures marks { scratch.new.marks ≡ scratch.old.marks }
{
    match relation {
        Relation::Within(node, target) => aim_within(scratch, *node, target),
        Relation::Less(left, right) => aim_apart(scratch, *left, *right, true),
        Relation::LessEq(left, right) => aim_apart(scratch, *left, *right, true),
        Relation::Equal(left, right) => aim_unequal(scratch, *left, *right),
        Relation::Defined(_) => (),
    }
}

/// Names a corner of the ranges. Where a node below the sides has no interval, it names none, and says why the first
/// of them has none.
fn lean_to(
    table: &ExprTable,
    relation: &Relation,
    roots: &[u32],
    ranges: &[Interval<Frac>],
    scratch: &mut Scratch,
    high: &mut [bool],
) -> Result<(), Reason>
    requires same { roots.now ≡ roots_of relation.now }
    requires roots { AreNodes table.now (roots_of relation.now) }
    requires entries { HasEntries table.now (roots_of relation.now) ranges.now }
    requires room { HasRoom scratch.old (length table.now) }
    requires high { length high.old ≡ length ranges.now }
    ensures stops { MatchResult result
        (λ _. (k : ℕ) → Contains (roots_of relation.now) k → (a : Ends Frac) × HasInterval table.now ranges.now k a)
        (StopsFor (GivesInterval ranges.now) RefusesInterval table.now (roots_of relation.now)) }
    ensures room { HasRoom scratch.new (length table.now) }
    ensures high { length high.new ≡ length high.old }
{
    let stretch = scratch.mark(table, roots);
    evaluate(table, roots, ranges, &[], stretch, scratch)?;
    aim(relation, scratch);
    lean_all(table, roots, stretch, scratch, high);
    Ok(())
}

/// Names a corner of the ranges, and answers why the first node below the sides without an interval has none.
fn corner(
    table: &ExprTable,
    relation: &Relation,
    ranges: &[Interval<Frac>],
    scratch: &mut Scratch,
    high: &mut [bool],
) -> Result<(), Reason>
    requires roots { AreNodes table.now (roots_of relation.now) }
    requires entries { HasEntries table.now (roots_of relation.now) ranges.now }
    requires room { HasRoom scratch.old (length table.now) }
    requires high { length high.old ≡ length ranges.now }
    ensures stops { MatchResult result
        (λ _. (k : ℕ) → Contains (roots_of relation.now) k → (a : Ends Frac) × HasInterval table.now ranges.now k a)
        (StopsFor (GivesInterval ranges.now) RefusesInterval table.now (roots_of relation.now)) }
    ensures room { HasRoom scratch.new (length table.now) }
    ensures high { length high.new ≡ length high.old }
{
    match relation {
        Relation::Within(node, _) => lean_to(table, relation, &[*node], ranges, scratch, high),
        Relation::Less(left, right) => {
            lean_to(table, relation, &[*left, *right], ranges, scratch, high)
        }
        Relation::LessEq(left, right) => {
            lean_to(table, relation, &[*left, *right], ranges, scratch, high)
        }
        Relation::Equal(left, right) => {
            lean_to(table, relation, &[*left, *right], ranges, scratch, high)
        }
        Relation::Defined(node) => lean_to(table, relation, &[*node], ranges, scratch, high),
    }
}

/// Whether the reason is an operation on ends that is refused.
fn is_wide(reason: Reason) -> bool
    ensures { MatchBool result (reason ≡ TooWide) (reason ≢ TooWide) }
{
    match reason {
        Reason::TooWide => true,
        Reason::ByZero => false,
        Reason::ZeroInside => false,
    }
}

/// Names a corner of the ranges, unless the judgement over them is `Wide`; answers whether it is not.
fn has_corner(
    table: &ExprTable,
    relation: &Relation,
    ranges: &[Interval<Frac>],
    scratch: &mut Scratch,
    high: &mut [bool],
) -> bool
    requires roots { AreNodes table.now (roots_of relation.now) }
    requires entries { HasEntries table.now (roots_of relation.now) ranges.now }
    requires room { HasRoom scratch.old (length table.now) }
    requires high { length high.old ≡ length ranges.now }
    ensures wide { MatchBool result
        (¬ Judges table.now ranges.now relation.now Wide)
        (Judges table.now ranges.now relation.now Wide) }
    ensures room { HasRoom scratch.new (length table.now) }
    ensures high { length high.new ≡ length high.old }
{
    match corner(table, relation, ranges, scratch, high) {
        Ok(()) => true,
        Err(reason) => !is_wide(reason),
    }
}

/// Looks for a corner of the ranges at which a relation fails: for a point that takes one end of each range.
///
/// `high` names the corner that was tried: it says for each variable whether the upper end of its range is taken.
/// `Fails` says that the relation fails there, and `Nothing` that it holds there. `Wide` comes exactly where `enclose` is
/// `Wide` over the ranges, or over the corner's points.
///
/// From the last node to the first those ends of the children's intervals are wanted which give the end that is
/// wanted of the node's. A variable's end is the one that the last of its uses wants.
///
/// The sides have to be nodes of the table, each variable below them needs a range, the scratch has to be reserved
/// for the table, and `high` has to be as long as the ranges. It takes no memory.
pub fn reach(
    table: &ExprTable,
    relation: &Relation,
    ranges: &[Interval<Frac>],
    scratch: &mut Scratch,
    high: &mut [bool],
) -> Reached
    requires roots { AreNodes table.now (roots_of relation.now) }
    requires entries { HasEntries table.now (roots_of relation.now) ranges.now }
    requires room { HasRoom scratch.old (length table.now) }
    requires high { length high.old ≡ length ranges.now }
    ensures reaches { Reaches table.now ranges.now high.new relation.now result }
    ensures fails { result ≡ Fails
        → FailsAtCorner table.now ranges.now relation.now (named high.new) }
    ensures room { HasRoom scratch.new (length table.now) }
    ensures high { length high.new ≡ length high.old }
{
    if !has_corner(table, relation, ranges, scratch, high) {
        return Reached::Wide;
    }
    match judge(table, relation, ranges, high, scratch) {
        Judgement::True => Reached::Nothing,
        Judgement::False => Reached::Fails,
        Judgement::Unknown => unreachable!(),
        Judgement::Wide => Reached::Wide,
    }
}
