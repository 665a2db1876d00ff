//! Statements.
ghost use Rattle.std.specs.Prelude.{◌≡◌};
ghost use Rattle.ato_base.specs.declared.keywords.Mark.TheVariants as marks;
ghost use Rattle.ato_parser.specs.Input.{Reads};
ghost use Rattle.ato_parser.specs.Parts.{maybe_behind};
ghost use Rattle.ato_parser.specs.Placing.{placed_from};
ghost use Rattle.ato_parser.specs.Reading as spec;

use crate::cursor::Tokens;
use crate::exprs::sum;
use crate::lines::LinePart;
use crate::names::{name, text};
use crate::paths::{only_name, path};
use crate::points::{connected, point};
use crate::stop::Stop;
use crate::values::{compare, value};
use ato_ast::{End, Named, Path, Stmt, Value};
use ato_base::{Keyword, Mark, Span, TokenKind};
use std::alloc::Global;

/// The end behind `~`, where that stands there.
fn other_end(alloc: Global, tokens: &mut Tokens<'_>) -> Result<Option<End>, Stop>
    ensures { Reads (maybe_behind marks.Tilde spec.connected tokens.old) result tokens.new }
{
    if !tokens.eat(Mark::Tilde) {
        return Ok(None);
    }
    Ok(Some(connected(alloc, tokens)?))
}

/// The value behind `=`, where that stands there.
fn first_value(alloc: Global, tokens: &mut Tokens<'_>, depth: usize) -> Result<Option<Value>, Stop>
    ensures { Reads (maybe_behind marks.Equal (spec.value depth) tokens.old) result tokens.new }
{
    if !tokens.eat(Mark::Equal) {
        return Ok(None);
    }
    Ok(Some(value(alloc, tokens, depth)?))
}

/// A statement that declares a point, which may be connected.
#[tactic(auto, unfolding(crate::specs::Reading::declared_point))]
fn declared_point(alloc: Global, tokens: &mut Tokens<'_>, start: Span) -> Result<Stmt, Stop>
    ensures { Reads (placed_from start (spec.declared_point 0) tokens.old) result tokens.new }
{
    let found = point(tokens)?;
    let end = other_end(alloc, tokens)?;
    Ok(Stmt::Point(found, end, tokens.since(start)))
}

/// What stands behind a path and `=`.
#[tactic(auto, unfolding(crate::specs::Reading::assigned, crate::specs::Kinds::same_keyword))]
fn assigned(
    alloc: Global,
    tokens: &mut Tokens<'_>,
    depth: usize,
    start: Span,
    path: Path,
) -> Result<Stmt, Stop>
    ensures { Reads (placed_from start (spec.assigned depth path) tokens.old) result tokens.new }
{
    if !tokens.sees_keyword(Keyword::New) {
        let found = value(alloc, tokens, depth)?;
        return Ok(Stmt::Assign(path, found, tokens.since(start)));
    }
    let Some(made) = only_name(&path) else {
        return Err(tokens.refuse());
    };
    tokens.take();
    let of = name(tokens)?;
    Ok(Stmt::Make(made, of, tokens.since(start)))
}

/// What stands behind a name that is declared, the name alone.
fn declared(
    alloc: Global,
    tokens: &mut Tokens<'_>,
    depth: usize,
    start: Span,
    found: Option<Named>,
) -> Result<Stmt, Stop>
    ensures { Reads (placed_from start (spec.declared_by depth found) tokens.old) result tokens.new }
{
    let Some(found) = found else {
        return Err(tokens.refuse());
    };
    tokens.expect(Mark::Colon)?;
    let of = name(tokens)?;
    let first = first_value(alloc, tokens, depth)?;
    Ok(Stmt::Declare(found, of, first, tokens.since(start)))
}

/// What stands behind the path that a statement begins with.
#[tactic(auto, unfolding(crate::specs::Reading::behind_path, crate::specs::Kinds::same_mark))]
fn behind_path(
    alloc: Global,
    tokens: &mut Tokens<'_>,
    depth: usize,
    start: Span,
    path: Path,
) -> Result<Stmt, Stop>
    ensures { Reads (placed_from start (spec.behind_path depth path) tokens.old) result tokens.new }
{
    match tokens.peek() {
        TokenKind::Mark(Mark::Tilde) => {
            tokens.take();
            let end = connected(alloc, tokens)?;
            Ok(Stmt::Connect(path, end, tokens.since(start)))
        }
        TokenKind::Mark(Mark::Arrow) => {
            tokens.take();
            let by = name(tokens)?;
            Ok(Stmt::Replace(path, by, tokens.since(start)))
        }
        TokenKind::Mark(Mark::Equal) => {
            tokens.take();
            assigned(alloc, tokens, depth, start, path)
        }
        _ => declared(alloc, tokens, depth, start, only_name(&path)),
    }
}

/// A statement that asserts something of an expression.
#[tactic(auto, unfolding(crate::specs::Reading::assertion))]
fn assertion(
    alloc: Global,
    tokens: &mut Tokens<'_>,
    depth: usize,
    start: Span,
) -> Result<Stmt, Stop>
    ensures { Reads (placed_from start (spec.assertion depth) tokens.old) result tokens.new }
{
    tokens.expect_keyword(Keyword::Assert)?;
    let found = sum(alloc, tokens, depth)?;
    let compared = compare(alloc, tokens, depth)?;
    Ok(Stmt::Assert(found, compared, tokens.since(start)))
}

/// A statement.
#[tactic(auto, unfolding(crate::specs::Reading::stmt, crate::specs::Reading::declared_point, crate::specs::Kinds::same_keyword))]
pub(crate) fn stmt(alloc: Global, tokens: &mut Tokens<'_>, depth: usize) -> Result<Stmt, Stop>
    ensures { Reads (spec.stmt depth tokens.old) result tokens.new }
{
    let start = tokens.here();
    match tokens.peek() {
        TokenKind::Keyword(Keyword::Pass) => {
            tokens.take();
            Ok(Stmt::Pass(tokens.since(start)))
        }
        TokenKind::Str(_) => Ok(Stmt::Docs(text(tokens)?)),
        TokenKind::Keyword(Keyword::Signal | Keyword::Pin) => {
            declared_point(alloc, tokens, start)
        }
        TokenKind::Keyword(Keyword::Assert) => assertion(alloc, tokens, depth, start),
        _ => {
            let first = path(alloc, tokens)?;
            behind_path(alloc, tokens, depth, start, first)
        }
    }
}

/// Whether a statement begins with it.
#[tactic(auto, unfolding(crate::specs::Kinds::same_keyword))]
pub(crate) fn starts_stmt(kind: TokenKind) -> bool
    ensures { result ≡ spec.starts_stmt kind }
{
    matches!(
        kind,
        TokenKind::Name(_)
            | TokenKind::Str(_)
            | TokenKind::Keyword(Keyword::Signal | Keyword::Pin | Keyword::Pass | Keyword::Assert)
    )
}

impl LinePart for Stmt {
    ghost starts = { spec.starts_stmt };

    ghost reader = { λ depth. spec.stmt depth };

    fn is_start(kind: TokenKind) -> bool {
        starts_stmt(kind)
    }

    fn part(alloc: Global, tokens: &mut Tokens<'_>, depth: usize) -> Result<Stmt, Stop> {
        stmt(alloc, tokens, depth)
    }
}
