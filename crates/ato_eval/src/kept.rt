//! Intervals that are kept for nodes in a scratch, and the operations over them.
ghost use Rattle.std.specs.Prelude.{◌≡◌, ◌∷◌, [], ◌<◌, ◌≤◌, ℕ, List, Some, length, slice_get, MatchResult, cond};
ghost use Rattle.ato_frac.specs.declared.fraction.Frac.{Frac};
ghost use Rattle.ato_interval.specs.Ends.{Ends};
ghost use Rattle.ato_interval.specs.Points.{point};
ghost use Rattle.ato_expr.specs.declared.ops.Op.TheVariants as ops;
ghost use Rattle.ato_expr.specs.Tables.{Fits};
ghost use Rattle.ato_eval.specs.declared.reason.Reason.TheVariants.{TooWide};
ghost use Rattle.ato_eval.specs.Corners.{narrowed};
ghost use Rattle.ato_eval.specs.Kept.{AllKept, AreAt, ChainAt, ChainStopsAt, GivesAt, IsAt, RefusesAt, RefusesStep, Steps, op_of};

use crate::operations::{absolute, greater, lesser, opposite, power, product, quotient, sum};
use crate::reason::Reason;
use ato_expr::{Op, Scratch};
use ato_frac::Frac;
use ato_interval::Interval;

/// An operation over one operand or more, from left to right.
#[derive(Clone, Copy, Debug)]
enum Chain {
    Sum,
    Least,
    Greatest,
}

/// The interval that is kept for a node.
pub(crate) fn interval_at(scratch: &Scratch, node: u32) -> Interval<Frac>
    requires { (interval : Ends Frac) × IsAt scratch.now.ends node interval }
    ensures { IsAt scratch.now.ends node result }
{
    let (low, high) = scratch.ends_at(node);
    match Interval::new(low, high) {
        Some(interval) => interval,
        None => unreachable!(),
    }
}

/// The interval of the first of some nodes, and the nodes after it.
fn first_of<'a>(scratch: &Scratch, nodes: &'a [u32]) -> (Interval<Frac>, &'a [u32])
    requires some { 1 ≤ length nodes.now }
    requires kept { AllKept scratch.now.ends nodes.now }
    ensures { (node : ℕ) × (nodes.now ≡ node ∷ result.1.now) × IsAt scratch.now.ends node result.0 }
{
    match nodes.split_first() {
        Some((node, later)) => (interval_at(scratch, *node), later),
        None => unreachable!(),
    }
}

/// The interval of the one node.
fn one(scratch: &Scratch, nodes: &[u32]) -> Interval<Frac>
    requires count { length nodes.now ≡ 1 }
    requires kept { AllKept scratch.now.ends nodes.now }
    ensures { AreAt scratch.now.ends nodes.now (result ∷ []) }
{
    let (first, _) = first_of(scratch, nodes);
    first
}

/// The intervals of the two nodes.
fn two(scratch: &Scratch, nodes: &[u32]) -> (Interval<Frac>, Interval<Frac>)
    requires count { length nodes.now ≡ 2 }
    requires kept { AllKept scratch.now.ends nodes.now }
    ensures { AreAt scratch.now.ends nodes.now (result.0 ∷ result.1 ∷ []) }
{
    let (first, later) = first_of(scratch, nodes);
    let second = one(scratch, later);
    (first, second)
}

/// One interval more.
fn step(
    chain: Chain,
    so_far: &Interval<Frac>,
    next: &Interval<Frac>,
) -> Result<Interval<Frac>, Reason>
    ensures { MatchResult result
        (Steps chain so_far.now next.now)
        (λ reason. (reason ≡ TooWide) × RefusesStep chain so_far.now next.now) }
{
    match chain {
        Chain::Sum => sum(so_far, next),
        Chain::Least => Ok(lesser(so_far, next)),
        Chain::Greatest => Ok(greater(so_far, next)),
    }
}

/// A first interval and those of the nodes after it, combined from left to right.
fn chained(
    chain: Chain,
    scratch: &Scratch,
    first: Interval<Frac>,
    nodes: &[u32],
) -> Result<Interval<Frac>, Reason>
    requires { AllKept scratch.now.ends nodes.now }
    ensures { MatchResult result
        (ChainAt chain scratch.now.ends first nodes.now)
        (λ reason. (reason ≡ TooWide) × ChainStopsAt chain scratch.now.ends first nodes.now) }
{
    let mut total = first;
    let mut rest = nodes;
    'rest: while let Some((node, later)) = rest.split_first() {
        let next = interval_at(scratch, *node);
        total = step(chain, &total, &next)?;
        rest = later;
    }
    Ok(total)
}

/// The intervals of one node or more, combined from left to right.
fn combined(chain: Chain, scratch: &Scratch, nodes: &[u32]) -> Result<Interval<Frac>, Reason>
    requires some { 1 ≤ length nodes.now }
    requires kept { AllKept scratch.now.ends nodes.now }
    ensures { (ranges : List (Ends Frac)) → MatchResult result
        (GivesAt ranges (op_of chain) scratch.now.ends nodes.now)
        (RefusesAt (op_of chain) scratch.now.ends nodes.now) }
{
    let (first, later) = first_of(scratch, nodes);
    chained(chain, scratch, first, later)
}

/// The product of the two nodes.
fn product_of(scratch: &Scratch, nodes: &[u32]) -> Result<Interval<Frac>, Reason>
    requires count { length nodes.now ≡ 2 }
    requires kept { AllKept scratch.now.ends nodes.now }
    ensures { (ranges : List (Ends Frac)) → MatchResult result
        (GivesAt ranges ops.Product scratch.now.ends nodes.now)
        (RefusesAt ops.Product scratch.now.ends nodes.now) }
{
    let (left, right) = two(scratch, nodes);
    product(&left, &right)
}

/// The first of the two nodes over the second.
fn quotient_of(scratch: &Scratch, nodes: &[u32]) -> Result<Interval<Frac>, Reason>
    requires count { length nodes.now ≡ 2 }
    requires kept { AllKept scratch.now.ends nodes.now }
    ensures { (ranges : List (Ends Frac)) → MatchResult result
        (GivesAt ranges ops.Quotient scratch.now.ends nodes.now)
        (RefusesAt ops.Quotient scratch.now.ends nodes.now) }
{
    let (left, right) = two(scratch, nodes);
    quotient(&left, &right)
}

/// The opposite of the one node.
fn opposite_of(scratch: &Scratch, nodes: &[u32]) -> Interval<Frac>
    requires count { length nodes.now ≡ 1 }
    requires kept { AllKept scratch.now.ends nodes.now }
    ensures { (ranges : List (Ends Frac)) → GivesAt ranges ops.Neg scratch.now.ends nodes.now result }
{
    let only = one(scratch, nodes);
    opposite(&only)
}

/// A power of the one node.
fn power_of(scratch: &Scratch, exponent: u32, nodes: &[u32]) -> Result<Interval<Frac>, Reason>
    requires from_one { 1 ≤ exponent }
    requires to_sixteen { exponent ≤ 16 }
    requires count { length nodes.now ≡ 1 }
    requires kept { AllKept scratch.now.ends nodes.now }
    ensures { (ranges : List (Ends Frac)) → MatchResult result
        (GivesAt ranges (ops.Power exponent) scratch.now.ends nodes.now)
        (RefusesAt (ops.Power exponent) scratch.now.ends nodes.now) }
{
    let only = one(scratch, nodes);
    power(&only, exponent)
}

/// The absolute value of the one node.
fn absolute_of(scratch: &Scratch, nodes: &[u32]) -> Result<Interval<Frac>, Reason>
    requires count { length nodes.now ≡ 1 }
    requires kept { AllKept scratch.now.ends nodes.now }
    ensures { (ranges : List (Ends Frac)) → MatchResult result
        (GivesAt ranges ops.Abs scratch.now.ends nodes.now)
        (RefusesAt ops.Abs scratch.now.ends nodes.now) }
{
    let only = one(scratch, nodes);
    absolute(&only)
}

/// Whether the high end is named for a variable, or the low one, or none.
fn end_named(high: &[bool], variable: u32) -> Option<bool>
    ensures { result ≡ slice_get high.now variable }
{
    high.get(variable as usize).copied()
}

/// One end of a range, as an interval.
fn end_of(range: &Interval<Frac>, is_high: bool) -> Interval<Frac>
    ensures { result ≡ point (cond is_high range.now.high range.now.low) }
{
    if is_high {
        Interval::point(range.high())
    } else {
        Interval::point(range.low())
    }
}

/// The range of a variable, or the end of it that is named.
fn range_at(ranges: &[Interval<Frac>], high: &[bool], variable: u32) -> Interval<Frac>
    requires { variable < length ranges.now }
    ensures { slice_get (narrowed ranges.now high.now) variable ≡ Some result }
{
    let range = ranges[variable as usize];
    match end_named(high, variable) {
        Some(is_high) => end_of(&range, is_high),
        None => range,
    }
}

/// The range of a variable, a constant, or an operation over the intervals that are kept for nodes.
/// Where `high` names an end for a variable, its range is that one point.
pub(crate) fn operation(
    op: Op,
    scratch: &Scratch,
    nodes: &[u32],
    ranges: &[Interval<Frac>],
    high: &[bool],
) -> Result<Interval<Frac>, Reason>
    requires fits { Fits op (length nodes.now) }
    requires entry { (v : ℕ) → op ≡ ops.Var v → v < length ranges.now }
    requires kept { AllKept scratch.now.ends nodes.now }
    ensures { MatchResult result
        (GivesAt (narrowed ranges.now high.now) op scratch.now.ends nodes.now)
        (RefusesAt op scratch.now.ends nodes.now) }
{
    match op {
        Op::Var(variable) => Ok(range_at(ranges, high, variable)),
        Op::Const(constant) => Ok(Interval::point(constant)),
        Op::Sum => combined(Chain::Sum, scratch, nodes),
        Op::Neg => Ok(opposite_of(scratch, nodes)),
        Op::Product => product_of(scratch, nodes),
        Op::Quotient => quotient_of(scratch, nodes),
        Op::Power(exponent) => power_of(scratch, exponent, nodes),
        Op::Min => combined(Chain::Least, scratch, nodes),
        Op::Max => combined(Chain::Greatest, scratch, nodes),
        Op::Abs => absolute_of(scratch, nodes),
    }
}
