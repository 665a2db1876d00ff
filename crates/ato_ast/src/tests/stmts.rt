use super::exprs::{absolute, choice, leaf, literals, path, product, sum, ten};
use super::{AT, named, number, one, quoted};
use crate::{Choice, Compare, Comparison, End, Expr, Label, Literal, Path, Point, Stmt, Value};
use ato_base::{List, NoMemory, TokenKind};
use std::alloc::Global;

/// The kind of a pin's number.
const PIN: Option<TokenKind> = Some(TokenKind::Number {
    whole: true,
    small: Some(7),
    at: AT,
});

fn one_name(alloc: Global) -> Result<Path, NoMemory> {
    path(alloc, &[3], None)
}

/// Statements that declare points or connect.
pub fn push_points(alloc: Global, out: &mut List<Stmt>) -> Result<(), NoMemory> {
    let number = Label::Number(number(1, 5), AT);
    let signal = Point::Signal(named(4), AT);
    let end = End::Path(path(alloc, &[3, 4], PIN)?);
    out.push(Stmt::Point(signal, None, AT))?;
    out.push(Stmt::Point(Point::Pin(number, AT), Some(end), AT))?;
    out.push(Stmt::Point(
        Point::Pin(Label::Text(quoted()), AT),
        Some(End::Point(signal)),
        AT,
    ))?;
    let name = Point::Pin(Label::Name(named(5)), AT);
    out.push(Stmt::Connect(one_name(alloc)?, End::Point(name), AT))?;
    out.push(Stmt::Replace(path(alloc, &[3, 4, 5], None)?, named(6), AT))
}

/// Statements that give a value.
pub fn push_values(alloc: Global, out: &mut List<Stmt>) -> Result<(), NoMemory> {
    let text = Value::Text(quoted());
    let literal = Value::Expr(Expr::Literal(Literal::One(ten()), AT));
    out.push(Stmt::Assign(one_name(alloc)?, text, AT))?;
    out.push(Stmt::Assign(path(alloc, &[3, 4], None)?, Value::Truth(true, AT), AT))?;
    out.push(Stmt::Assign(one_name(alloc)?, Value::Truth(false, AT), AT))?;
    out.push(Stmt::Make(named(3), named(4), AT))?;
    out.push(Stmt::Declare(named(3), named(4), None, AT))?;
    out.push(Stmt::Declare(named(3), named(4), Some(literal), AT))
}

fn push_assert(
    alloc: Global,
    out: &mut List<Stmt>,
    comparison: Comparison,
    expr: Expr,
) -> Result<(), NoMemory> {
    let sides = Compare::Sides(comparison, leaf(alloc, 6)?);
    out.push(Stmt::Assert(expr, sides, AT))
}

/// Statements that assert.
pub fn push_asserts(alloc: Global, out: &mut List<Stmt>) -> Result<(), NoMemory> {
    push_assert(alloc, out, Comparison::Less, sum(alloc)?)?;
    push_assert(alloc, out, Comparison::LessEqual, product(alloc)?)?;
    push_assert(alloc, out, Comparison::Greater, absolute(alloc)?)?;
    push_assert(
        alloc,
        out,
        Comparison::GreaterEqual,
        choice(alloc, Choice::Min, &[4, 5])?,
    )?;
    push_assert(alloc, out, Comparison::Is, choice(alloc, Choice::Max, &[])?)?;
    let many = Compare::Within(literals(alloc)?);
    let single = Compare::Within(one(alloc, Literal::One(ten()))?);
    out.push(Stmt::Assert(leaf(alloc, 3)?, many, AT))?;
    out.push(Stmt::Assert(leaf(alloc, 3)?, single, AT))
}
