//! Names, paths, literals and expressions, written out as the kinds of tokens.

ghost use Rattle.std.specs.Prelude.{◌≡◌, [], ◌∷◌, ◌++◌, OnOk};
ghost use Rattle.ato_ast.specs.PathKinds as paths;
ghost use Rattle.ato_ast.specs.ExprKinds as exprs;

use crate::{Choice, Expr, Label, Literal, Named, Number, Part, Path, Point, Scale, Sign, Unit};
use ato_base::{Keyword, List, Mark, Name, NoMemory, TokenKind};

/// The name `abs`, the first of each table.
const ABS: Name = Name(0);

/// The name `max`.
const MAX: Name = Name(1);

/// The name `min`.
const MIN: Name = Name(2);

fn number_kind(number: Number) -> TokenKind
    ensures { result ≡ paths.number_kind number }
{
    TokenKind::Number {
        whole: number.whole,
        small: number.small,
        at: number.at,
    }
}

fn label_kind(label: Label) -> TokenKind
    ensures { result ≡ paths.label_kind label }
{
    match label {
        Label::Name(name) => TokenKind::Name(name.name),
        Label::Number(number, _) => number_kind(number),
        Label::Text(text) => TokenKind::Str(text.contents),
    }
}

/// Puts the kinds of a point.
pub(crate) fn push_point(out: &mut List<TokenKind>, point: &Point) -> Result<(), NoMemory>
    ensures { OnOk result (out.new ≡ out.old ++ paths.point_kinds point.now) }
{
    match point {
        Point::Signal(name, _) => {
            out.push(TokenKind::Keyword(Keyword::Signal))?;
            out.push(TokenKind::Name(name.name))
        }
        Point::Pin(label, _) => {
            out.push(TokenKind::Keyword(Keyword::Pin))?;
            out.push(label_kind(*label))
        }
    }
}

/// Puts the kinds of names, each behind a mark.
fn push_more_names(out: &mut List<TokenKind>, between: Mark, more: &[Named]) -> Result<(), NoMemory>
    ensures { OnOk result (out.new ≡ out.old ++ paths.marked between (λ n. paths.named_kind n ∷ []) more.now) }
{
    for name in more {
        out.push(TokenKind::Mark(between))?;
        out.push(TokenKind::Name(name.name))?;
    }
    Ok(())
}

/// Puts the kinds of names with a mark between.
pub(crate) fn push_names(
    out: &mut List<TokenKind>,
    between: Mark,
    names: &[Named],
) -> Result<(), NoMemory>
    ensures { OnOk result (out.new ≡ out.old ++ paths.names_kinds between names.now) }
{
    match names {
        [] => Ok(()),
        [first, more @ ..] => {
            out.push(TokenKind::Name(first.name))?;
            push_more_names(out, between, more)
        }
    }
}

/// Puts the kinds of a path.
#[tactic(auto, unfolding(crate::specs::PathKinds::path_kinds))]
pub(crate) fn push_path(out: &mut List<TokenKind>, path: &Path) -> Result<(), NoMemory>
    ensures { OnOk result (out.new ≡ out.old ++ paths.path_kinds path.now) }
{
    push_names(out, Mark::Dot, path.steps.as_slice())?;
    if let Some(pin) = path.pin {
        out.push(TokenKind::Mark(Mark::Dot))?;
        out.push(pin)?;
    }
    Ok(())
}

/// Puts the kinds of a part of a literal.
#[tactic(auto, unfolding(crate::specs::ExprKinds::part_kinds))]
fn push_part(out: &mut List<TokenKind>, part: &Part) -> Result<(), NoMemory>
    ensures { OnOk result (out.new ≡ out.old ++ exprs.part_kinds part.now) }
{
    if part.minus {
        out.push(TokenKind::Mark(Mark::Minus))?;
    }
    out.push(number_kind(part.number))?;
    match part.unit {
        None => Ok(()),
        Some(Unit::Name(name)) => out.push(TokenKind::Name(name)),
        Some(Unit::Percent) => out.push(TokenKind::Mark(Mark::Percent)),
    }
}

/// Puts the kinds of a literal.
#[tactic(auto, unfolding(crate::specs::ExprKinds::literal_kinds))]
pub(crate) fn push_literal(out: &mut List<TokenKind>, literal: &Literal) -> Result<(), NoMemory>
    ensures { OnOk result (out.new ≡ out.old ++ exprs.literal_kinds literal.now) }
{
    match literal {
        Literal::One(part) => push_part(out, part),
        Literal::To(from, to) => {
            push_part(out, from)?;
            out.push(TokenKind::Keyword(Keyword::To))?;
            push_part(out, to)
        }
        Literal::About(nominal, tolerance) => {
            push_part(out, nominal)?;
            out.push(TokenKind::Mark(Mark::PlusMinus))?;
            push_part(out, tolerance)
        }
    }
}

fn sign_kind(sign: Sign) -> TokenKind
    ensures { result ≡ exprs.sign_kind sign }
{
    match sign {
        Sign::Plus => TokenKind::Mark(Mark::Plus),
        Sign::Minus => TokenKind::Mark(Mark::Minus),
    }
}

fn scale_kind(scale: Scale) -> TokenKind
    ensures { result ≡ exprs.scale_kind scale }
{
    match scale {
        Scale::Times => TokenKind::Mark(Mark::Star),
        Scale::Over => TokenKind::Mark(Mark::Slash),
    }
}

fn choice_kind(choice: Choice) -> TokenKind
    ensures { result ≡ exprs.choice_kind choice }
{
    match choice {
        Choice::Min => TokenKind::Name(MIN),
        Choice::Max => TokenKind::Name(MAX),
    }
}

/// Puts the kinds of the operands of a sum behind the first.
#[cycle(push_expr)]
fn push_signed(out: &mut List<TokenKind>, more: &[(Sign, Expr)]) -> Result<(), NoMemory>
    ensures { OnOk result (out.new ≡ out.old ++ exprs.signed_kinds more.now) }
{
    for (sign, operand) in more {
        out.push(sign_kind(*sign))?;
        push_expr(out, operand)?;
    }
    Ok(())
}

/// Puts the kinds of the operands of a product behind the first.
#[cycle(push_expr)]
fn push_scaled(out: &mut List<TokenKind>, more: &[(Scale, Expr)]) -> Result<(), NoMemory>
    ensures { OnOk result (out.new ≡ out.old ++ exprs.scaled_kinds more.now) }
{
    for (scale, operand) in more {
        out.push(scale_kind(*scale))?;
        push_expr(out, operand)?;
    }
    Ok(())
}

/// Puts the kinds of operands, each behind a comma.
#[cycle(push_expr)]
fn push_listed(out: &mut List<TokenKind>, more: &[Expr]) -> Result<(), NoMemory>
    ensures { OnOk result (out.new ≡ out.old ++ exprs.listed_kinds more.now) }
{
    for operand in more {
        out.push(TokenKind::Mark(Mark::Comma))?;
        push_expr(out, operand)?;
    }
    Ok(())
}

/// Puts the kinds of an expression.
#[cycle(push_expr)]
pub(crate) fn push_expr(out: &mut List<TokenKind>, expr: &Expr) -> Result<(), NoMemory>
    ensures { OnOk result (out.new ≡ out.old ++ exprs.expr_kinds expr.now) }
{
    match expr {
        Expr::Sum(first, more, _) => {
            push_expr(out, first.get())?;
            push_signed(out, more.as_slice())
        }
        Expr::Product(first, more, _) => {
            push_expr(out, first.get())?;
            push_scaled(out, more.as_slice())
        }
        Expr::Power(base, exponent, _) => {
            push_expr(out, base.get())?;
            out.push(TokenKind::Mark(Mark::Power))?;
            out.push(number_kind(*exponent))
        }
        Expr::Group(inner, _) => {
            out.push(TokenKind::Mark(Mark::LeftParenthesis))?;
            push_expr(out, inner.get())?;
            out.push(TokenKind::Mark(Mark::RightParenthesis))
        }
        Expr::Abs(inner, _) => {
            out.push(TokenKind::Name(ABS))?;
            out.push(TokenKind::Mark(Mark::LeftParenthesis))?;
            push_expr(out, inner.get())?;
            out.push(TokenKind::Mark(Mark::RightParenthesis))
        }
        Expr::Choice(choice, first, more, _) => {
            out.push(choice_kind(*choice))?;
            out.push(TokenKind::Mark(Mark::LeftParenthesis))?;
            push_expr(out, first.get())?;
            push_listed(out, more.as_slice())?;
            out.push(TokenKind::Mark(Mark::RightParenthesis))
        }
        Expr::Path(path) => push_path(out, path),
        Expr::Literal(literal, _) => push_literal(out, literal),
    }
}
