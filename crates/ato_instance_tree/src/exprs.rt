//! The paths and the first tokens of expressions.
ghost use Rattle.std.specs.Prelude.{◌≡◌, ◌++◌, map, OnOk};
ghost use Rattle.std.specs.List.{flat_map};
ghost use Rattle.ato_instance_tree.specs.Exprs.{expr_paths, expr_front, front_of, part_front, literal_front, steps_front, is_literal};

use ato_ast::{Expr, Literal, Part, Path, Scale, Sign};
use ato_base::{List, NoMemory, Span};

/// Puts the paths of the operands of a sum behind the first.
#[cycle(paths)]
fn signed_paths<'a>(more: &'a [(Sign, Expr)], into: &mut List<&'a Path>) -> Result<(), NoMemory>
    ensures { OnOk result (map (λ p. p.now) into.new ≡ map (λ p. p.now) into.old ++ flat_map (λ x. expr_paths x.1) more.now) }
{
    for (_, operand) in more {
        paths(operand, into)?;
    }
    Ok(())
}

/// Puts the paths of the operands of a product behind the first.
#[cycle(paths)]
fn scaled_paths<'a>(more: &'a [(Scale, Expr)], into: &mut List<&'a Path>) -> Result<(), NoMemory>
    ensures { OnOk result (map (λ p. p.now) into.new ≡ map (λ p. p.now) into.old ++ flat_map (λ x. expr_paths x.1) more.now) }
{
    for (_, operand) in more {
        paths(operand, into)?;
    }
    Ok(())
}

/// Puts the paths of operands.
#[cycle(paths)]
fn listed_paths<'a>(more: &'a [Expr], into: &mut List<&'a Path>) -> Result<(), NoMemory>
    ensures { OnOk result (map (λ p. p.now) into.new ≡ map (λ p. p.now) into.old ++ flat_map expr_paths more.now) }
{
    for operand in more {
        paths(operand, into)?;
    }
    Ok(())
}

/// Puts the paths of an expression behind the others, from left to right.
#[cycle(paths)]
pub fn paths<'a>(expr: &'a Expr, into: &mut List<&'a Path>) -> Result<(), NoMemory>
    ensures { OnOk result (map (λ p. p.now) into.new ≡ map (λ p. p.now) into.old ++ expr_paths expr.now) }
{
    match expr {
        Expr::Sum(first, more, _) => {
            paths(first.get(), into)?;
            signed_paths(more.as_slice(), into)
        }
        Expr::Product(first, more, _) => {
            paths(first.get(), into)?;
            scaled_paths(more.as_slice(), into)
        }
        Expr::Power(base, _, _) => paths(base.get(), into),
        Expr::Group(inner, _) => paths(inner.get(), into),
        Expr::Abs(inner, _) => paths(inner.get(), into),
        Expr::Choice(_, first, more, _) => {
            paths(first.get(), into)?;
            listed_paths(more.as_slice(), into)
        }
        Expr::Path(path) => into.push(path),
        Expr::Literal(_, _) => Ok(()),
    }
}

/// So many bytes from the start of a place, or all of it. It takes no memory.
pub fn front_of(long: u32, at: Span) -> Span
    ensures { result ≡ front_of long at }
{
    Span {
        file: at.file,
        start: at.start,
        end: at.end.min(at.start.saturating_add(long)),
    }
}

/// The first token of a quantity: its sign, or its number.
fn part_front(part: &Part) -> Span
    ensures { result ≡ part_front part.now }
{
    if part.minus {
        front_of(1, part.at)
    } else {
        part.number.at
    }
}

/// The first token of a literal.
fn literal_front(literal: &Literal) -> Span
    ensures { result ≡ literal_front literal.now }
{
    match literal {
        Literal::One(part) => part_front(part),
        Literal::To(part, _) => part_front(part),
        Literal::About(part, _) => part_front(part),
    }
}

/// The first token of a path: its first name. It takes no memory.
pub fn path_front(path: &Path) -> Span
    ensures { result ≡ steps_front path.now.at path.now.steps }
{
    match path.steps.as_slice() {
        [] => path.at,
        [first, ..] => first.at,
    }
}

/// Where the first token of an expression stands. It takes no memory.
#[cycle(first_token)]
pub fn first_token(expr: &Expr) -> Span
    ensures { result ≡ expr_front expr.now }
{
    match expr {
        Expr::Sum(first, _, _) => first_token(first.get()),
        Expr::Product(first, _, _) => first_token(first.get()),
        Expr::Power(base, _, _) => first_token(base.get()),
        Expr::Group(_, at) => front_of(1, *at),
        Expr::Abs(_, at) => front_of(3, *at),
        Expr::Choice(_, _, _, at) => front_of(3, *at),
        Expr::Path(path) => path_front(path),
        Expr::Literal(literal, _) => literal_front(literal),
    }
}

/// Whether an expression is one literal, without parentheses. It takes no memory.
#[tactic(auto, unfolding(crate::specs::Exprs::is_literal))]
pub fn is_literal(expr: &Expr) -> bool
    ensures { result ≡ is_literal expr.now }
{
    match expr {
        Expr::Literal(_, _) => true,
        _ => false,
    }
}
