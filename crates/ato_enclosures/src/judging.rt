//! What is printed of a relation.

ghost use Rattle.std.specs.Prelude.{◌↔◌, ◌<◌, IsTrue, length};
ghost use Rattle.ato_expr.specs.Tables.{AreNodes};
ghost use Rattle.ato_expr.specs.Values.{roots_of};

use crate::session::Stop;
use ato_eval::{Judgement, Reached, enclose, reach};
use ato_expr::{ExprTable, Relation, Scratch};
use ato_frac::Frac;
use ato_interval::Interval;

/// The text of a judgement.
fn judgement_text(judgement: Judgement) -> &'static str {
    match judgement {
        Judgement::True => "true",
        Judgement::False => "false",
        Judgement::Unknown => "unknown",
        Judgement::Wide => "wide",
    }
}

/// The text of what is found at a corner.
fn reached_text(reached: Reached) -> &'static str {
    match reached {
        Reached::Fails => " fails",
        Reached::Nothing => " holds",
        Reached::Wide => " wide",
    }
}

/// Whether a number is that of a node.
fn is_node(table: &ExprTable, node: u32) -> bool
    ensures { IsTrue result ↔ node < length table.now }
{
    node < table.count()
}

/// Whether the sides of a relation are nodes.
fn are_nodes(table: &ExprTable, relation: &Relation) -> bool
    ensures { IsTrue result → AreNodes table.now (roots_of relation.now) }
{
    match relation {
        Relation::Within(node, _) => is_node(table, *node),
        Relation::Less(left, right) => is_node(table, *left) && is_node(table, *right),
        Relation::LessEq(left, right) => is_node(table, *left) && is_node(table, *right),
        Relation::Equal(left, right) => is_node(table, *left) && is_node(table, *right),
        Relation::Defined(node) => is_node(table, *node),
    }
}

/// The judgement of a relation over ranges, judged so often, and what is found at a corner, which `high` names then.
fn judged(
    table: &ExprTable,
    relation: &Relation,
    ranges: &[Interval<Frac>],
    times: u32,
    scratch: &mut Scratch,
    high: &mut [bool],
) -> Result<(Judgement, Reached), Stop> {
    if !are_nodes(table, relation)
        || ranges.len() < table.variables()
        || high.len() != ranges.len()
    {
        return Err(Stop::Form);
    }
    scratch.reserve(table)?;
    for _ in 1..times {
        enclose(table, relation, ranges, scratch);
    }
    let judgement = enclose(table, relation, ranges, scratch);
    Ok((judgement, reach(table, relation, ranges, scratch, high)))
}

/// Puts what is found of a relation at the end of `out`. `high` has an entry for each range.
pub fn print_judged(
    table: &ExprTable,
    relation: &Relation,
    ranges: &[Interval<Frac>],
    times: u32,
    scratch: &mut Scratch,
    high: &mut [bool],
    out: &mut String,
) -> Result<(), Stop> {
    let (judgement, reached) = judged(table, relation, ranges, times, scratch, high)?;
    out.push_str(judgement_text(judgement))?;
    out.push_str(reached_text(reached))?;
    for is_high in high.iter() {
        out.push_str(if *is_high { " ^" } else { " _" })?;
    }
    out.push_str("\n")?;
    Ok(())
}
