//! Statements, printed with their places.
use crate::print_exprs::{
    Scene, put_at, put_expr, put_literal, put_named, put_number, put_path, put_quoted,
};
use ato_ast::{Compare, Comparison, End, Expr, Label, Literal, Named, Path, Point, Stmt, Value};
use ato_base::{NoMemory, Span};

/// A label; that of a number has the place of the number and its own.
fn put_label(out: &mut String, scene: &Scene<'_>, label: &Label) -> Result<(), NoMemory> {
    match label {
        Label::Name(named) => put_named(out, scene, named),
        Label::Text(text) => put_quoted(out, scene, text),
        Label::Number(number, at) => {
            put_number(out, scene, *number)?;
            put_at(out, scene, *at)
        }
    }
}

/// Closes something that stands there.
fn put_close(out: &mut String, scene: &Scene<'_>, at: Span) -> Result<(), NoMemory> {
    out.push_str(")")?;
    put_at(out, scene, at)
}

fn put_point(out: &mut String, scene: &Scene<'_>, point: &Point) -> Result<(), NoMemory> {
    match point {
        Point::Signal(named, at) => {
            out.push_str("signal(")?;
            put_named(out, scene, named)?;
            put_close(out, scene, *at)
        }
        Point::Pin(label, at) => {
            out.push_str("pin(")?;
            put_label(out, scene, label)?;
            put_close(out, scene, *at)
        }
    }
}

fn put_end(out: &mut String, scene: &Scene<'_>, end: &End) -> Result<(), NoMemory> {
    match end {
        End::Point(point) => put_point(out, scene, point),
        End::Path(path) => put_path(out, scene, path),
    }
}

fn put_value(out: &mut String, scene: &Scene<'_>, value: &Value) -> Result<(), NoMemory> {
    match value {
        Value::Text(text) => put_quoted(out, scene, text),
        Value::Truth(truth, at) => {
            out.push_str(if *truth { "True" } else { "False" })?;
            put_at(out, scene, *at)
        }
        Value::Expr(expr) => put_expr(out, scene, expr),
    }
}

fn comparison_text(comparison: Comparison) -> &'static str {
    match comparison {
        Comparison::Less => " < ",
        Comparison::LessEqual => " <= ",
        Comparison::Greater => " > ",
        Comparison::GreaterEqual => " >= ",
        Comparison::Is => " is ",
    }
}

fn put_literals(out: &mut String, scene: &Scene<'_>, literals: &[Literal]) -> Result<(), NoMemory> {
    for (place, literal) in literals.iter().enumerate() {
        out.push_str(if place > 0 { " | " } else { " within " })?;
        put_literal(out, scene, literal)?;
    }
    Ok(())
}

fn put_assert(
    out: &mut String,
    scene: &Scene<'_>,
    expr: &Expr,
    compare: &Compare,
) -> Result<(), NoMemory> {
    out.push_str("assert(")?;
    put_expr(out, scene, expr)?;
    match compare {
        Compare::Sides(comparison, other) => {
            out.push_str(comparison_text(*comparison))?;
            put_expr(out, scene, other)
        }
        Compare::Within(literals) => put_literals(out, scene, literals.as_slice()),
    }
}

fn put_declared(
    out: &mut String,
    scene: &Scene<'_>,
    point: &Point,
    end: &Option<End>,
) -> Result<(), NoMemory> {
    out.push_str("point(")?;
    put_point(out, scene, point)?;
    match end {
        None => Ok(()),
        Some(end) => {
            out.push_str(" ~ ")?;
            put_end(out, scene, end)
        }
    }
}

fn put_typed(
    out: &mut String,
    scene: &Scene<'_>,
    named: &Named,
    of: &Named,
    value: &Option<Value>,
) -> Result<(), NoMemory> {
    out.push_str("declare(")?;
    put_named(out, scene, named)?;
    out.push_str(": ")?;
    put_named(out, scene, of)?;
    match value {
        None => Ok(()),
        Some(value) => {
            out.push_str(" = ")?;
            put_value(out, scene, value)
        }
    }
}

/// A word with an open parenthesis, a path, and what stands behind it.
fn put_start(
    out: &mut String,
    scene: &Scene<'_>,
    word: &str,
    path: &Path,
    behind: &str,
) -> Result<(), NoMemory> {
    out.push_str(word)?;
    put_path(out, scene, path)?;
    out.push_str(behind)?;
    Ok(())
}

/// What a statement is of which parts, up to its end.
fn put_parts(out: &mut String, scene: &Scene<'_>, stmt: &Stmt) -> Result<(), NoMemory> {
    match stmt {
        Stmt::Pass(_) => {
            out.push_str("pass(")?;
            Ok(())
        }
        Stmt::Docs(text) => {
            out.push_str("docs(")?;
            put_quoted(out, scene, text)
        }
        Stmt::Point(point, end, _) => put_declared(out, scene, point, end),
        Stmt::Connect(path, end, _) => {
            put_start(out, scene, "connect(", path, " ~ ")?;
            put_end(out, scene, end)
        }
        Stmt::Replace(path, named, _) => {
            put_start(out, scene, "replace(", path, " -> ")?;
            put_named(out, scene, named)
        }
        Stmt::Assign(path, value, _) => {
            put_start(out, scene, "assign(", path, " = ")?;
            put_value(out, scene, value)
        }
        Stmt::Make(named, of, _) => {
            out.push_str("make(")?;
            put_named(out, scene, named)?;
            out.push_str(" = new ")?;
            put_named(out, scene, of)
        }
        Stmt::Declare(named, of, value, _) => put_typed(out, scene, named, of, value),
        Stmt::Assert(expr, compare, _) => put_assert(out, scene, expr, compare),
    }
}

/// A statement as what it is, its parts, and its place.
pub(crate) fn put_stmt(out: &mut String, scene: &Scene<'_>, stmt: &Stmt) -> Result<(), NoMemory> {
    put_parts(out, scene, stmt)?;
    put_close(out, scene, stmt.at())
}
