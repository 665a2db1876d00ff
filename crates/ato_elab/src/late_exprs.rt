//! What is wrong with the expressions of occurrences.
ghost use Rattle.std.specs.Prelude.{◌≡◌, ◌++◌, map, IfOk, OnOk};
ghost use Rattle.ato_instance_tree.specs.Exprs.{expr_paths, compared_paths};
ghost use Rattle.ato_elab.specs.Late.{params_in, value_in};

use crate::faults::{Mark, Wanted};
use crate::late_ground::Ground;
use crate::late_paths::path_mark;
use crate::late_slots::slot_mark;
use ato_ast::{Compare, Expr, Path};
use ato_base::{List, NoMemory};
use ato_instance_tree::{is_literal, paths};
use std::alloc::Global;

/// The first mark of paths that are to lead to parameters.
fn params_in(ground: &Ground<'_>, instance: u32, list: &[&Path]) -> Option<Mark>
    ensures { result ≡ params_in ground.now instance (map (λ p. p.now) list.now) }
{
    for path in list {
        match path_mark(ground, Wanted::Param, instance, path) {
            Some(mark) => return Some(mark),
            None => {}
        }
    }
    None
}

/// The first mark of the paths of an expression.
fn expr_in(
    alloc: Global,
    ground: &Ground<'_>,
    instance: u32,
    expr: &Expr,
) -> Result<Option<Mark>, NoMemory>
    ensures { IfOk result (λ mark. mark ≡ params_in ground.now instance (expr_paths expr.now)) }
{
    let mut list = List::new(alloc);
    paths(expr, &mut list)?;
    Ok(params_in(ground, instance, list.as_slice()))
}

/// What is wrong with an expression that is assigned to a parameter of an instance.
pub(crate) fn value_in(
    alloc: Global,
    ground: &Ground<'_>,
    instance: u32,
    holder: Option<u32>,
    expr: &Expr,
) -> Result<Option<Mark>, NoMemory>
    ensures { IfOk result (λ mark. mark ≡ value_in ground.now instance holder expr.now) }
{
    if is_literal(expr) {
        return Ok(None);
    }
    match slot_mark(ground, holder, expr) {
        Some(mark) => Ok(Some(mark)),
        None => expr_in(alloc, ground, instance, expr),
    }
}

/// Puts the paths of what an expression is compared with behind the others.
fn compared_paths<'a>(compare: &'a Compare, into: &mut List<&'a Path>) -> Result<(), NoMemory>
    ensures { OnOk result (map (λ p. p.now) into.new ≡ map (λ p. p.now) into.old ++ compared_paths compare.now) }
{
    match compare {
        Compare::Sides(_, other) => paths(other, into),
        Compare::Within(_) => Ok(()),
    }
}

/// The first mark of the paths of an assertion.
pub(crate) fn assert_in(
    alloc: Global,
    ground: &Ground<'_>,
    instance: u32,
    expr: &Expr,
    compare: &Compare,
) -> Result<Option<Mark>, NoMemory>
    ensures { IfOk result (λ mark. mark ≡ params_in ground.now instance (expr_paths expr.now ++ compared_paths compare.now)) }
{
    let mut list = List::new(alloc);
    paths(expr, &mut list)?;
    compared_paths(compare, &mut list)?;
    Ok(params_in(ground, instance, list.as_slice()))
}
