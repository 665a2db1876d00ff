//! What is wrong with the statements of occurrences.
ghost use Rattle.std.specs.Prelude.{◌≡◌, IfOk};
ghost use Rattle.std.specs.Option.{option_or};
ghost use Rattle.ato_elab.specs.declared.faults.Wanted.TheVariants as wanted;
ghost use Rattle.ato_elab.specs.Faults.{judged, text_judged};
ghost use Rattle.ato_elab.specs.Late.{text_in, value_in, holder_of, assign_in, declare_in, end_in, maybe_end_in, mark_in};

use crate::faults::{Mark, Wanted, judged, text_judged, wrong};
use crate::finding_names::Sort;
use crate::finding_paths::Found;
use crate::late_exprs::{assert_in, value_in};
use crate::late_ground::Ground;
use crate::late_paths::{found_in, path_mark};
use crate::late_prefixes::text_in;
use ato_ast::{End, Expr, Named, Quoted, Stmt, Value};
use ato_base::NoMemory;
use std::alloc::Global;

/// The first of two marks.
fn first_of(one: Option<Mark>, other: Option<Mark>) -> Option<Mark>
    ensures { result ≡ option_or one other }
{
    match one {
        Some(mark) => Some(mark),
        None => other,
    }
}

/// The instance whose parameter is found.
fn holder_of(found: Found) -> Option<u32>
    ensures { result ≡ holder_of found }
{
    match found {
        Found::Member(instance, _, _, Sort::Param) => Some(instance),
        Found::Member(_, _, _, Sort::Signal) | Found::Member(_, _, _, Sort::Instance) => None,
        Found::Lost(_) | Found::Free(_, _) | Found::Pin(_) => None,
    }
}

/// What is wrong with a string that is assigned where a path leads.
fn string_mark(ground: &Ground<'_>, number: u32, found: Found, text: Quoted) -> Option<Mark>
    ensures { result ≡ option_or (text_judged found) (text_in ground.now number text found) }
{
    first_of(text_judged(found), text_in(ground, number, text, found))
}

/// What is wrong with an expression that is assigned where a path leads.
fn quantity_mark(
    alloc: Global,
    ground: &Ground<'_>,
    instance: u32,
    found: Found,
    expr: &Expr,
) -> Result<Option<Mark>, NoMemory>
    ensures { IfOk result (λ mark. mark ≡ option_or (judged wanted.Param found) (value_in ground.now instance (holder_of found) expr.now)) }
{
    match judged(Wanted::Param, found) {
        Some(mark) => Ok(Some(mark)),
        None => value_in(alloc, ground, instance, holder_of(found), expr),
    }
}

/// What is wrong with a value that is assigned where a path leads.
fn assign_in(
    alloc: Global,
    ground: &Ground<'_>,
    instance: u32,
    number: u32,
    found: Found,
    value: &Value,
) -> Result<Option<Mark>, NoMemory>
    ensures { IfOk result (λ mark. mark ≡ assign_in ground.now instance number found value.now) }
{
    match value {
        Value::Text(text) => Ok(string_mark(ground, number, found, *text)),
        Value::Truth(_, _) => Ok(text_judged(found)),
        Value::Expr(expr) => quantity_mark(alloc, ground, instance, found, expr),
    }
}

/// What is wrong with a value that is declared with a parameter.
fn declare_in(
    alloc: Global,
    ground: &Ground<'_>,
    instance: u32,
    name: Named,
    value: &Option<Value>,
) -> Result<Option<Mark>, NoMemory>
    ensures { IfOk result (λ mark. mark ≡ declare_in ground.now instance name value.now) }
{
    match value {
        None => Ok(None),
        Some(Value::Text(_)) | Some(Value::Truth(_, _)) => Ok(Some(wrong(name.at))),
        Some(Value::Expr(expr)) => value_in(alloc, ground, instance, Some(instance), expr),
    }
}

/// What is wrong with an end of a connection.
fn end_in(ground: &Ground<'_>, instance: u32, end: &End) -> Option<Mark>
    ensures { result ≡ end_in ground.now instance end.now }
{
    match end {
        End::Point(_) => None,
        End::Path(path) => path_mark(ground, Wanted::End, instance, path),
    }
}

/// The same of an end that may be there.
fn maybe_end_in(ground: &Ground<'_>, instance: u32, end: &Option<End>) -> Option<Mark>
    ensures { result ≡ maybe_end_in ground.now instance end.now }
{
    match end {
        Some(end) => end_in(ground, instance, end),
        None => None,
    }
}

/// The first mark of a statement of the instance of a node, where the occurrence has this number.
pub(crate) fn mark_in(
    alloc: Global,
    ground: &Ground<'_>,
    instance: u32,
    number: u32,
    stmt: &Stmt,
) -> Result<Option<Mark>, NoMemory>
    ensures { IfOk result (λ mark. mark ≡ mark_in ground.now instance number stmt.now) }
{
    match stmt {
        Stmt::Pass(_) | Stmt::Docs(_) | Stmt::Make(_, _, _) => Ok(None),
        Stmt::Point(_, end, _) => Ok(maybe_end_in(ground, instance, end)),
        Stmt::Connect(path, end, _) => Ok(first_of(
            path_mark(ground, Wanted::End, instance, path),
            end_in(ground, instance, end),
        )),
        Stmt::Replace(path, _, _) => Ok(path_mark(ground, Wanted::Instance, instance, path)),
        Stmt::Assign(path, value, _) => {
            let found = found_in(ground, instance, path);
            assign_in(alloc, ground, instance, number, found, value)
        }
        Stmt::Declare(name, _, value, _) => declare_in(alloc, ground, instance, *name, value),
        Stmt::Assert(expr, compare, _) => assert_in(alloc, ground, instance, expr, compare),
    }
}
