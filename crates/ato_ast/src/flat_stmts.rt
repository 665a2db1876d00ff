//! Statements, written out as the kinds of tokens.

ghost use Rattle.std.specs.Prelude.{◌≡◌, ◌++◌, OnOk};
ghost use Rattle.ato_base.specs.declared.keywords.Mark.TheVariants as mark;
ghost use Rattle.ato_ast.specs.PathKinds as paths;
ghost use Rattle.ato_ast.specs.ExprKinds as exprs;
ghost use Rattle.ato_ast.specs.StmtKinds as stmts;

use crate::flat_exprs::{push_expr, push_literal, push_path, push_point};
use crate::{Compare, Comparison, End, Expr, Literal, Named, Path, Point, Stmt, Value};
use ato_base::{Keyword, List, Mark, NoMemory, TokenKind};

fn push_end(out: &mut List<TokenKind>, end: &End) -> Result<(), NoMemory>
    ensures { OnOk result (out.new ≡ out.old ++ stmts.end_kinds end.now) }
{
    match end {
        End::Point(point) => push_point(out, point),
        End::Path(path) => push_path(out, path),
    }
}

fn push_value(out: &mut List<TokenKind>, value: &Value) -> Result<(), NoMemory>
    ensures { OnOk result (out.new ≡ out.old ++ stmts.value_kinds value.now) }
{
    match value {
        Value::Text(text) => out.push(TokenKind::Str(text.contents)),
        Value::Truth(true, _) => out.push(TokenKind::Keyword(Keyword::True)),
        Value::Truth(false, _) => out.push(TokenKind::Keyword(Keyword::False)),
        Value::Expr(expr) => push_expr(out, expr),
    }
}

fn comparison_kind(comparison: Comparison) -> TokenKind
    ensures { result ≡ stmts.comparison_kind comparison }
{
    match comparison {
        Comparison::Less => TokenKind::Mark(Mark::Less),
        Comparison::LessEqual => TokenKind::Mark(Mark::LessEqual),
        Comparison::Greater => TokenKind::Mark(Mark::Greater),
        Comparison::GreaterEqual => TokenKind::Mark(Mark::GreaterEqual),
        Comparison::Is => TokenKind::Keyword(Keyword::Is),
    }
}

/// Literals, each with a bar before it.
fn push_more_literals(out: &mut List<TokenKind>, more: &[Literal]) -> Result<(), NoMemory>
    ensures { OnOk result (out.new ≡ out.old ++ paths.marked mark.Bar exprs.literal_kinds more.now) }
{
    for literal in more {
        out.push(TokenKind::Mark(Mark::Bar))?;
        push_literal(out, literal)?;
    }
    Ok(())
}

fn push_literals(out: &mut List<TokenKind>, literals: &[Literal]) -> Result<(), NoMemory>
    ensures { OnOk result (out.new ≡ out.old ++ paths.joined mark.Bar exprs.literal_kinds literals.now) }
{
    match literals {
        [] => Ok(()),
        [first, more @ ..] => {
            push_literal(out, first)?;
            push_more_literals(out, more)
        }
    }
}

fn push_compare(out: &mut List<TokenKind>, compare: &Compare) -> Result<(), NoMemory>
    ensures { OnOk result (out.new ≡ out.old ++ stmts.compare_kinds compare.now) }
{
    match compare {
        Compare::Sides(comparison, expr) => {
            out.push(comparison_kind(*comparison))?;
            push_expr(out, expr)
        }
        Compare::Within(literals) => {
            out.push(TokenKind::Keyword(Keyword::Within))?;
            push_literals(out, literals.as_slice())
        }
    }
}

fn push_connected(out: &mut List<TokenKind>, end: &Option<End>) -> Result<(), NoMemory>
    ensures { OnOk result (out.new ≡ out.old ++ stmts.connected_kinds end.now) }
{
    match end {
        None => Ok(()),
        Some(end) => {
            out.push(TokenKind::Mark(Mark::Tilde))?;
            push_end(out, end)
        }
    }
}

fn push_assigned(out: &mut List<TokenKind>, value: &Option<Value>) -> Result<(), NoMemory>
    ensures { OnOk result (out.new ≡ out.old ++ stmts.assigned_kinds value.now) }
{
    match value {
        None => Ok(()),
        Some(value) => {
            out.push(TokenKind::Mark(Mark::Equal))?;
            push_value(out, value)
        }
    }
}

fn push_make(out: &mut List<TokenKind>, name: &Named, of: &Named) -> Result<(), NoMemory>
    ensures { OnOk result (out.new ≡ out.old ++ stmts.make_kinds name.now of.now) }
{
    out.push(TokenKind::Name(name.name))?;
    out.push(TokenKind::Mark(Mark::Equal))?;
    out.push(TokenKind::Keyword(Keyword::New))?;
    out.push(TokenKind::Name(of.name))
}

/// Puts the kinds of a statement.
pub(crate) fn push_stmt(out: &mut List<TokenKind>, stmt: &Stmt) -> Result<(), NoMemory>
    ensures { OnOk result (out.new ≡ out.old ++ stmts.stmt_kinds stmt.now) }
{
    match stmt {
        Stmt::Pass(_) => out.push(TokenKind::Keyword(Keyword::Pass)),
        Stmt::Docs(text) => out.push(TokenKind::Str(text.contents)),
        Stmt::Point(point, end, _) => {
            push_point(out, point)?;
            push_connected(out, end)
        }
        Stmt::Connect(path, end, _) => {
            push_path(out, path)?;
            out.push(TokenKind::Mark(Mark::Tilde))?;
            push_end(out, end)
        }
        Stmt::Replace(path, name, _) => {
            push_path(out, path)?;
            out.push(TokenKind::Mark(Mark::Arrow))?;
            out.push(TokenKind::Name(name.name))
        }
        Stmt::Assign(path, value, _) => {
            push_path(out, path)?;
            out.push(TokenKind::Mark(Mark::Equal))?;
            push_value(out, value)
        }
        Stmt::Make(name, of, _) => push_make(out, name, of),
        Stmt::Declare(name, of, value, _) => {
            out.push(TokenKind::Name(name.name))?;
            out.push(TokenKind::Mark(Mark::Colon))?;
            out.push(TokenKind::Name(of.name))?;
            push_assigned(out, value)
        }
        Stmt::Assert(expr, compare, _) => {
            out.push(TokenKind::Keyword(Keyword::Assert))?;
            push_expr(out, expr)?;
            push_compare(out, compare)
        }
    }
}
