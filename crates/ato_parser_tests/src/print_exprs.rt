//! Expressions, printed with their places.
//!
//! A name is printed as it is written, a number as its value, `large` or `decimal`, a string as where what
//! stands between its quotes does. Behind each stands its place, as `@3..5`, counted from a first byte.
use crate::runs::FILE;
use ato_ast::{Choice, Expr, Literal, Named, Number, Part, Path, Quoted, Scale, Sign, Unit};
use ato_base::{Name, NameTable, NoMemory, Span, TokenKind};

/// The names of a tree, and the byte from which places are counted.
#[derive(Drop)]
pub(crate) struct Scene<'a> {
    pub(crate) names: &'a NameTable,
    pub(crate) from: u32,
}

pub(crate) fn put_at(out: &mut String, scene: &Scene<'_>, at: Span) -> Result<(), NoMemory> {
    if at.file != FILE {
        out.push_str("elsewhere")?;
    }
    let start = at.start.wrapping_sub(scene.from);
    let end = at.end.wrapping_sub(scene.from);
    write!(out, "@{start}..{end}")?;
    Ok(())
}

fn put_name(out: &mut String, scene: &Scene<'_>, name: Name) -> Result<(), NoMemory> {
    out.push_str(scene.names.text(name).unwrap_or("unknown"))?;
    Ok(())
}

pub(crate) fn put_named(
    out: &mut String,
    scene: &Scene<'_>,
    named: &Named,
) -> Result<(), NoMemory> {
    put_name(out, scene, named.name)?;
    put_at(out, scene, named.at)
}

/// Names with commas between.
pub(crate) fn put_names(
    out: &mut String,
    scene: &Scene<'_>,
    names: &[Named],
) -> Result<(), NoMemory> {
    for (place, named) in names.iter().enumerate() {
        if place > 0 {
            out.push_str(", ")?;
        }
        put_named(out, scene, named)?;
    }
    Ok(())
}

pub(crate) fn put_number(
    out: &mut String,
    scene: &Scene<'_>,
    number: Number,
) -> Result<(), NoMemory> {
    match number.small {
        Some(value) => write!(out, "{value}")?,
        None if number.whole => out.push_str("large")?,
        None => out.push_str("decimal")?,
    }
    put_at(out, scene, number.at)
}

pub(crate) fn put_quoted(
    out: &mut String,
    scene: &Scene<'_>,
    text: &Quoted,
) -> Result<(), NoMemory> {
    let start = text.contents.start.wrapping_sub(scene.from);
    let end = text.contents.end.wrapping_sub(scene.from);
    write!(out, "'{start}..{end}'")?;
    put_at(out, scene, text.at)
}

fn put_pin(out: &mut String, scene: &Scene<'_>, pin: TokenKind) -> Result<(), NoMemory> {
    match pin {
        TokenKind::Number { whole, small, at } => {
            out.push_str(" .")?;
            put_number(out, scene, Number { whole, small, at })
        }
        _ => {
            out.push_str(" other")?;
            Ok(())
        }
    }
}

/// The names of a path with blanks between, behind an open parenthesis, and the pin.
fn put_steps(out: &mut String, scene: &Scene<'_>, path: &Path) -> Result<(), NoMemory> {
    for (place, step) in path.steps.as_slice().iter().enumerate() {
        out.push_str(if place > 0 { " " } else { "(" })?;
        put_named(out, scene, step)?;
    }
    match path.pin {
        None => Ok(()),
        Some(pin) => put_pin(out, scene, pin),
    }
}

/// A path as its names in parentheses.
pub(crate) fn put_path(out: &mut String, scene: &Scene<'_>, path: &Path) -> Result<(), NoMemory> {
    put_steps(out, scene, path)?;
    out.push_str(")")?;
    put_at(out, scene, path.at)
}

/// A part of a literal in angles.
fn put_part(out: &mut String, scene: &Scene<'_>, part: &Part) -> Result<(), NoMemory> {
    out.push_str(if part.minus { "<-" } else { "<" })?;
    put_number(out, scene, part.number)?;
    match part.unit {
        None => {}
        Some(Unit::Percent) => out.push_str(" %")?,
        Some(Unit::Name(name)) => {
            out.push_str(" ")?;
            put_name(out, scene, name)?;
        }
    }
    out.push_str(">")?;
    put_at(out, scene, part.at)
}

pub(crate) fn put_literal(
    out: &mut String,
    scene: &Scene<'_>,
    literal: &Literal,
) -> Result<(), NoMemory> {
    match literal {
        Literal::One(part) => put_part(out, scene, part),
        Literal::To(low, high) => {
            put_part(out, scene, low)?;
            out.push_str(" to ")?;
            put_part(out, scene, high)
        }
        Literal::About(nominal, tolerance) => {
            put_part(out, scene, nominal)?;
            out.push_str(" +/- ")?;
            put_part(out, scene, tolerance)
        }
    }
}

#[cycle(put_expr)]
fn put_signed(out: &mut String, scene: &Scene<'_>, more: &[(Sign, Expr)]) -> Result<(), NoMemory> {
    for (sign, operand) in more {
        out.push_str(if *sign == Sign::Plus { " + " } else { " - " })?;
        put_expr(out, scene, operand)?;
    }
    Ok(())
}

#[cycle(put_expr)]
fn put_scaled(out: &mut String, scene: &Scene<'_>, more: &[(Scale, Expr)]) -> Result<(), NoMemory> {
    for (scale, operand) in more {
        out.push_str(if *scale == Scale::Times { " * " } else { " / " })?;
        put_expr(out, scene, operand)?;
    }
    Ok(())
}

#[cycle(put_expr)]
fn put_listed(out: &mut String, scene: &Scene<'_>, more: &[Expr]) -> Result<(), NoMemory> {
    for operand in more {
        out.push_str(", ")?;
        put_expr(out, scene, operand)?;
    }
    Ok(())
}

/// A word with an open parenthesis, and an expression.
#[cycle(put_expr)]
fn put_first(
    out: &mut String,
    scene: &Scene<'_>,
    word: &str,
    first: &Expr,
) -> Result<(), NoMemory> {
    out.push_str(word)?;
    put_expr(out, scene, first)
}

/// What an expression is of which parts, without its place.
#[cycle(put_expr)]
fn put_parts(out: &mut String, scene: &Scene<'_>, expr: &Expr) -> Result<(), NoMemory> {
    match expr {
        Expr::Sum(first, more, _) => {
            put_first(out, scene, "sum(", first.get())?;
            put_signed(out, scene, more.as_slice())
        }
        Expr::Product(first, more, _) => {
            put_first(out, scene, "product(", first.get())?;
            put_scaled(out, scene, more.as_slice())
        }
        Expr::Power(base, exponent, _) => {
            put_first(out, scene, "power(", base.get())?;
            out.push_str(" ** ")?;
            put_number(out, scene, *exponent)
        }
        Expr::Group(inner, _) => put_first(out, scene, "group(", inner.get()),
        Expr::Abs(inner, _) => put_first(out, scene, "abs(", inner.get()),
        Expr::Choice(choice, first, more, _) => {
            let word = if *choice == Choice::Min {
                "min("
            } else {
                "max("
            };
            put_first(out, scene, word, first.get())?;
            put_listed(out, scene, more.as_slice())
        }
        Expr::Path(path) => put_steps(out, scene, path),
        Expr::Literal(literal, _) => {
            out.push_str("literal(")?;
            put_literal(out, scene, literal)
        }
    }
}

/// An expression as what it is, its parts, and its place.
#[cycle(put_expr)]
pub(crate) fn put_expr(out: &mut String, scene: &Scene<'_>, expr: &Expr) -> Result<(), NoMemory> {
    put_parts(out, scene, expr)?;
    out.push_str(")")?;
    put_at(out, scene, expr.at())
}
