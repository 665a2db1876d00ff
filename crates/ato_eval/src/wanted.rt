//! Which end of a node's interval is wanted. It stands first in the pair that is kept for the node.
ghost use Rattle.std.specs.Prelude.{◌≡◌, ◌<◌, ℕ, Bool, length, Contains, slice_set};
ghost use Rattle.ato_rational.specs.Rational.{◌<ℚ◌};
ghost use Rattle.ato_frac.specs.declared.fraction.Frac.{Frac};
ghost use Rattle.ato_frac.specs.Fractions.{value_of};
ghost use Rattle.ato_interval.specs.Ends.{Ends};
ghost use Rattle.ato_eval.specs.Wanted.{IsWanted, turned};

use ato_expr::Scratch;
use ato_frac::Frac;
use ato_interval::Interval;

/// The interval of two ends, the high one first.
fn falling(high: Frac, low: Frac) -> Interval<Frac>
    requires { value_of low <ℚ value_of high }
    ensures low { result.low ≡ low }
    ensures high { result.high ≡ high }
{
    match Interval::new(low, high) {
        Some(interval) => interval,
        None => unreachable!(),
    }
}

/// The interval that is kept for a node, and whether its high end is wanted.
pub(crate) fn wanted(scratch: &Scratch, node: u32) -> (Interval<Frac>, bool)
    requires { node < length scratch.now.ends }
    ensures { IsWanted scratch.now.ends node result.0 result.1 }
{
    let (first, second) = scratch.ends_at(node);
    match Interval::new(first, second) {
        Some(interval) => (interval, false),
        None => (falling(first, second), true),
    }
}

/// Wants an end of a node's interval.
pub(crate) fn want(scratch: &mut Scratch, node: u32, is_high: bool)
    requires { node < length scratch.old.ends }
    ensures ends { (a : Ends Frac) × (was : Bool) × IsWanted scratch.old.ends node a was
        × (scratch.new.ends ≡ slice_set scratch.old.ends node (turned is_high a)) }
    ensures marks { scratch.new.marks ≡ scratch.old.marks }
{
    let (interval, _) = wanted(scratch, node);
    if is_high {
        scratch.put(node, interval.high(), interval.low());
    } else {
        scratch.put(node, interval.low(), interval.high());
    }
}

/// Wants the same end of each of some nodes' intervals.
pub(crate) fn want_all(scratch: &mut Scratch, nodes: &[u32], is_high: bool)
    requires { (k : ℕ) → Contains nodes.now k → k < length scratch.old.ends }
    ensures ends { length scratch.new.ends ≡ length scratch.old.ends }
    ensures marks { scratch.new.marks ≡ scratch.old.marks }
{
    for node in nodes {
        want(scratch, *node, is_high);
    }
}
