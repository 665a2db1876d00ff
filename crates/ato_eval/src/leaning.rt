//! Which ends of the ranges give the ends of intervals that are wanted, node by node from the last to the first.
ghost use Rattle.std.specs.Prelude.{◌≡◌, ◌↔◌, ◌<◌, ◌≤◌, ℕ, length, Contains, slice_get, Some};
ghost use Rattle.ato_expr.specs.declared.ops.Op.TheVariants.{Var};
ghost use Rattle.ato_expr.specs.Scratches.{HasRoom, IsMarked};
ghost use Rattle.ato_expr.specs.Tables.{Entry, Fits, HasEntries, IsBelow};

use crate::wanted::{want, want_all, wanted};
use ato_expr::{ExprTable, Op, Scratch, Stretch};
use ato_frac::{Exact, Frac, at_most};
use ato_interval::Interval;

/// An operation of two that need not rise in both.
#[derive(Clone, Copy, Debug)]
enum Pair {
    Product,
    Quotient,
}

/// Whether an operation of two ends gives an end.
fn gives(pair: Pair, left: &Frac, right: &Frac, end: &Frac) -> bool {
    let result = match pair {
        Pair::Product => left.mul(right),
        Pair::Quotient => left.div(right),
    };
    match result {
        Ok(result) => result == *end,
        Err(_) => false,
    }
}

/// Which of the ends of two intervals give an end: whether the high one of the first, and of the second.
fn ends_of(pair: Pair, left: &Interval<Frac>, right: &Interval<Frac>, end: &Frac) -> (bool, bool) {
    if gives(pair, &left.low(), &right.low(), end) {
        (false, false)
    } else if gives(pair, &left.low(), &right.high(), end) {
        (false, true)
    } else if gives(pair, &left.high(), &right.low(), end) {
        (true, false)
    } else {
        (true, true)
    }
}

/// Wants the ends of two nodes' intervals that give an end.
fn want_two(pair: Pair, scratch: &mut Scratch, left: u32, right: u32, end: &Frac)
    requires left { left < length scratch.old.ends }
    requires right { right < length scratch.old.ends }
    ensures ends { length scratch.new.ends ≡ length scratch.old.ends }
    ensures marks { scratch.new.marks ≡ scratch.old.marks }
{
    let (first, _) = wanted(scratch, left);
    let (second, _) = wanted(scratch, right);
    let (left_high, right_high) = ends_of(pair, &first, &second, end);
    want(scratch, left, left_high);
    want(scratch, right, right_high);
}

/// Wants the ends of the two nodes' intervals that give an end.
fn want_pair(pair: Pair, scratch: &mut Scratch, nodes: &[u32], end: &Frac)
    requires nodes { (k : ℕ) → Contains nodes.now k → k < length scratch.old.ends }
    ensures ends { length scratch.new.ends ≡ length scratch.old.ends }
    ensures marks { scratch.new.marks ≡ scratch.old.marks }
{
    if let [left, right] = nodes {
        want_two(pair, scratch, *left, *right, end);
    }
}

/// Wants the end of a node's interval that gives an end of a function's: one that rises, or falls up to 0 and rises from
/// there on.
fn want_one(folds: bool, scratch: &mut Scratch, node: u32, is_high: bool)
    requires { node < length scratch.old.ends }
    ensures ends { length scratch.new.ends ≡ length scratch.old.ends }
    ensures marks { scratch.new.marks ≡ scratch.old.marks }
{
    let (interval, _) = wanted(scratch, node);
    let falls = folds && !at_most(&Frac::zero(), &interval.low());
    want(scratch, node, is_high != falls);
}

/// Wants the end of the one node's interval.
fn want_base(folds: bool, scratch: &mut Scratch, nodes: &[u32], is_high: bool)
    requires nodes { (k : ℕ) → Contains nodes.now k → k < length scratch.old.ends }
    ensures ends { length scratch.new.ends ≡ length scratch.old.ends }
    ensures marks { scratch.new.marks ≡ scratch.old.marks }
{
    if let [node] = nodes {
        want_one(folds, scratch, *node, is_high);
    }
}

/// Wants the ends of the children's intervals that give the end that is wanted of an operation's.
fn lean_children(
    op: Op,
    scratch: &mut Scratch,
    nodes: &[u32],
    interval: &Interval<Frac>,
    is_high: bool,
)
    requires nodes { (k : ℕ) → Contains nodes.now k → k < length scratch.old.ends }
    ensures ends { length scratch.new.ends ≡ length scratch.old.ends }
    ensures marks { scratch.new.marks ≡ scratch.old.marks }
{
    let end = if is_high {
        interval.high()
    } else {
        interval.low()
    };
    match op {
        Op::Var(_) | Op::Const(_) => (),
        Op::Sum | Op::Min | Op::Max => want_all(scratch, nodes, is_high),
        Op::Neg => want_all(scratch, nodes, !is_high),
        Op::Product => want_pair(Pair::Product, scratch, nodes, &end),
        Op::Quotient => want_pair(Pair::Quotient, scratch, nodes, &end),
        Op::Power(exponent) => want_base(exponent % 2 == 0, scratch, nodes, is_high),
        Op::Abs => want_base(true, scratch, nodes, is_high),
    }
}

/// Names the end of a variable's range that is wanted.
fn name_end(op: Op, high: &mut [bool], is_high: bool)
    requires { (v : ℕ) → op ≡ Var v → v < length high.old }
    ensures { length high.new ≡ length high.old }
{
    if let Op::Var(variable) = op {
        high[variable as usize] = is_high;
    }
}

/// Wants the ends of a node's children, or names the end of its range.
fn lean(table: &ExprTable, node: u32, scratch: &mut Scratch, high: &mut [bool])
    requires there { node < length table.now }
    requires room { length table.now ≤ length scratch.old.ends }
    requires entries { (v : ℕ) (e : Entry) → slice_get table.now node ≡ Some e → e.op ≡ Var v
        → v < length high.old }
    ensures ends { length scratch.new.ends ≡ length scratch.old.ends }
    ensures marks { scratch.new.marks ≡ scratch.old.marks }
    ensures high { length high.new ≡ length high.old }
{
    let (op, children) = table.entry(node);
    let (interval, is_high) = wanted(scratch, node);
    lean_children(op, scratch, children, &interval, is_high);
    name_end(op, high, is_high);
}

/// Wants ends of the intervals of all nodes of a stretch that are marked, from the last to the first, so that they
/// give those that are wanted of the nodes after them; the ends of the variables' ranges are named.
pub(crate) fn lean_all(
    table: &ExprTable,
    roots: &[u32],
    stretch: Stretch,
    scratch: &mut Scratch,
    high: &mut [bool],
)
    requires end { stretch.end ≤ length table.now }
    requires entries { HasEntries table.now roots.now high.old }
    requires room { HasRoom scratch.old (length table.now) }
    requires marks { (k : ℕ) → IsMarked stretch scratch.old.marks k ↔ IsBelow table.now roots.now k }
    ensures room { HasRoom scratch.new (length table.now) }
    ensures high { length high.new ≡ length high.old }
{
    let mut node = stretch.end;
    while stretch.first < node {
        node -= 1;
        if scratch.is_marked(node) {
            lean(table, node, scratch, high);
        }
    }
}
