//! Operations over fractions that are held for nodes.
ghost use Rattle.std.specs.Prelude.{◌≡◌, ◌<◌, ◌≤◌, ℕ, [], ◌∷◌, length, Contains, MatchResult};
ghost use Rattle.std.specs.Prelude.{List};
ghost use Rattle.ato_frac.specs.declared.fraction.Frac.{Frac};
ghost use Rattle.ato_frac.specs.declared.faults.NumFault.TheVariants.{Wide};
ghost use Rattle.ato_expr.specs.declared.ops.Op.TheVariants.{Var, Product, Quotient, Power, Abs};
ghost use Rattle.ato_expr.specs.Held.{AreAt, ChainGives, ChainRefuses, GivesAt, IsAt, RefusesAt, RefusesStep, Steps};
ghost use Rattle.ato_expr.specs.Tables.{Fits};

use crate::Op;
use ato_frac::{Frac, NumFault, absolute, greater, lesser, power};

/// An operation over one operand or more, from left to right.
#[derive(Clone, Copy, Debug)]
enum Chain {
    Sum,
    Least,
    Greatest,
}

/// The fraction of a node.
fn value(node: u32, ends: &[(Frac, Frac)]) -> Frac
    requires { node < length ends.now }
    ensures { IsAt ends.now node result }
{
    ends[node as usize].0
}

/// The fraction of the one node.
fn one(nodes: &[u32], ends: &[(Frac, Frac)]) -> Frac
    requires count { length nodes.now ≡ 1 }
    requires held { (n : ℕ) → Contains nodes.now n → n < length ends.now }
    ensures { AreAt ends.now nodes.now (result ∷ []) }
{
    value(nodes[0], ends)
}

/// The fractions of the two nodes.
fn two(nodes: &[u32], ends: &[(Frac, Frac)]) -> (Frac, Frac)
    requires count { length nodes.now ≡ 2 }
    requires held { (n : ℕ) → Contains nodes.now n → n < length ends.now }
    ensures { AreAt ends.now nodes.now (result.0 ∷ result.1 ∷ []) }
{
    (value(nodes[0], ends), value(nodes[1], ends))
}

/// The product of the two nodes.
fn product(nodes: &[u32], ends: &[(Frac, Frac)]) -> Result<Frac, NumFault>
    requires count { length nodes.now ≡ 2 }
    requires held { (n : ℕ) → Contains nodes.now n → n < length ends.now }
    ensures { (world : List Frac) → MatchResult result
        (GivesAt world Product ends.now nodes.now)
        (RefusesAt Product ends.now nodes.now) }
{
    let (left, right) = two(nodes, ends);
    left.mul(&right)
}

/// The first of the two nodes over the second.
fn quotient(nodes: &[u32], ends: &[(Frac, Frac)]) -> Result<Frac, NumFault>
    requires count { length nodes.now ≡ 2 }
    requires held { (n : ℕ) → Contains nodes.now n → n < length ends.now }
    ensures { (world : List Frac) → MatchResult result
        (GivesAt world Quotient ends.now nodes.now)
        (RefusesAt Quotient ends.now nodes.now) }
{
    let (left, right) = two(nodes, ends);
    left.div(&right)
}

/// A power of the one node.
fn powered(nodes: &[u32], exponent: u32, ends: &[(Frac, Frac)]) -> Result<Frac, NumFault>
    requires exponent { 1 ≤ exponent }
    requires count { length nodes.now ≡ 1 }
    requires held { (n : ℕ) → Contains nodes.now n → n < length ends.now }
    ensures { (world : List Frac) → MatchResult result
        (GivesAt world (Power exponent) ends.now nodes.now)
        (RefusesAt (Power exponent) ends.now nodes.now) }
{
    match power(&one(nodes, ends), exponent) {
        Some(power) => Ok(power),
        None => Err(NumFault::Wide),
    }
}

/// The absolute value of the one node.
fn magnitude(nodes: &[u32], ends: &[(Frac, Frac)]) -> Result<Frac, NumFault>
    requires count { length nodes.now ≡ 1 }
    requires held { (n : ℕ) → Contains nodes.now n → n < length ends.now }
    ensures { (world : List Frac) → MatchResult result
        (GivesAt world Abs ends.now nodes.now)
        (RefusesAt Abs ends.now nodes.now) }
{
    match absolute(&one(nodes, ends)) {
        Some(magnitude) => Ok(magnitude),
        None => Err(NumFault::Wide),
    }
}

/// One operand more.
fn step(chain: Chain, so_far: &Frac, next: &Frac) -> Result<Frac, NumFault>
    ensures { MatchResult result
        (Steps chain so_far.now next.now)
        (λ fault. (fault ≡ Wide) × RefusesStep chain so_far.now next.now) }
{
    match chain {
        Chain::Sum => so_far.add(next),
        Chain::Least => Ok(lesser(*so_far, *next)),
        Chain::Greatest => Ok(greater(*so_far, *next)),
    }
}

/// The operation over a first node and those that follow, from left to right.
fn combined(chain: Chain, first: u32, rest: &[u32], ends: &[(Frac, Frac)]) -> Result<Frac, NumFault>
    requires first { first < length ends.now }
    requires rest { (n : ℕ) → Contains rest.now n → n < length ends.now }
    ensures { MatchResult result
        (ChainGives chain ends.now (first ∷ rest.now))
        (ChainRefuses chain ends.now (first ∷ rest.now)) }
{
    let mut total = value(first, ends);
    for node in rest {
        let next = value(*node, ends);
        total = step(chain, &total, &next)?;
    }
    Ok(total)
}

/// The operation over one node or more, from left to right.
fn chained(chain: Chain, nodes: &[u32], ends: &[(Frac, Frac)]) -> Result<Frac, NumFault>
    requires some { 1 ≤ length nodes.now }
    requires held { (n : ℕ) → Contains nodes.now n → n < length ends.now }
    ensures { MatchResult result
        (ChainGives chain ends.now nodes.now)
        (ChainRefuses chain ends.now nodes.now) }
{
    combined(chain, nodes[0], &nodes[1..], ends)
}

/// The value of a variable or a constant, or an operation over the fractions of nodes.
pub(crate) fn operation(
    op: Op,
    nodes: &[u32],
    world: &[Frac],
    ends: &[(Frac, Frac)],
) -> Result<Frac, NumFault>
    requires fits { Fits op (length nodes.now) }
    requires entry { (v : ℕ) → op ≡ Var v → v < length world.now }
    requires held { (n : ℕ) → Contains nodes.now n → n < length ends.now }
    ensures { MatchResult result
        (GivesAt world.now op ends.now nodes.now)
        (RefusesAt op ends.now nodes.now) }
{
    match op {
        Op::Var(variable) => Ok(world[variable as usize]),
        Op::Const(constant) => Ok(constant),
        Op::Sum => chained(Chain::Sum, nodes, ends),
        Op::Neg => Ok(one(nodes, ends).opposite()),
        Op::Product => product(nodes, ends),
        Op::Quotient => quotient(nodes, ends),
        Op::Power(exponent) => powered(nodes, exponent, ends),
        Op::Min => chained(Chain::Least, nodes, ends),
        Op::Max => chained(Chain::Greatest, nodes, ends),
        Op::Abs => magnitude(nodes, ends),
    }
}
