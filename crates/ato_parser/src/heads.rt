//! Heads.
ghost use Rattle.std.specs.Prelude.{◌≡◌};
ghost use Rattle.ato_base.specs.declared.keywords.Mark.TheVariants as marks;
ghost use Rattle.ato_parser.specs.Input.{Reads};
ghost use Rattle.ato_parser.specs.Parts.{more_behind};
ghost use Rattle.ato_parser.specs.Placing.{placed_from};
ghost use Rattle.ato_parser.specs.FileReading as spec;
ghost use Rattle.ato_parser.specs.Reading as reading;

use crate::cursor::Tokens;
use crate::lines::LinePart;
use crate::names::{name, text};
use crate::stop::Stop;
use ato_ast::{Head, Named};
use ato_base::{Keyword, List, Mark, Span, TokenKind};
use std::alloc::Global;

/// A first name, and those behind it, each behind a comma.
fn more_names(alloc: Global, tokens: &mut Tokens<'_>, first: Named) -> Result<List<Named>, Stop>
    ensures { Reads (more_behind marks.Comma reading.name first tokens.old) result tokens.new }
{
    let mut found = List::new(alloc);
    found.push(first)?;
    for _turn in 0..tokens.left() {
        if !tokens.eat(Mark::Comma) {
            break;
        }
        let next = name(tokens)?;
        found.push(next)?;
    }
    Ok(found)
}

/// `NAME { "," NAME }`.
#[tactic(auto, unfolding(crate::specs::FileReading::names, crate::specs::FileReading::more_names))]
fn names(alloc: Global, tokens: &mut Tokens<'_>) -> Result<List<Named>, Stop>
    ensures { Reads (spec.names tokens.old) result tokens.new }
{
    let first = name(tokens)?;
    more_names(alloc, tokens, first)
}

/// `import NAME from STRING` or `import NAME { "," NAME }`, whose place begins at `start`.
#[tactic(auto, unfolding(crate::specs::FileReading::imported, crate::specs::FileReading::more_names))]
fn imported(alloc: Global, tokens: &mut Tokens<'_>, start: Span) -> Result<Head, Stop>
    ensures { Reads (placed_from start spec.imported tokens.old) result tokens.new }
{
    tokens.expect_keyword(Keyword::Import)?;
    let first = name(tokens)?;
    if tokens.sees_keyword(Keyword::From) {
        tokens.take();
        let file = text(tokens)?;
        return Ok(Head::ImportFrom(first, file, tokens.since(start)));
    }
    let found = more_names(alloc, tokens, first)?;
    Ok(Head::Import(found, tokens.since(start)))
}

/// `from STRING import NAME { "," NAME }`, whose place begins at `start`.
#[tactic(auto, unfolding(crate::specs::FileReading::from_file))]
fn from_file(alloc: Global, tokens: &mut Tokens<'_>, start: Span) -> Result<Head, Stop>
    ensures { Reads (placed_from start spec.from_file tokens.old) result tokens.new }
{
    tokens.expect_keyword(Keyword::From)?;
    let file = text(tokens)?;
    tokens.expect_keyword(Keyword::Import)?;
    let found = names(alloc, tokens)?;
    Ok(Head::From(file, found, tokens.since(start)))
}

/// A head.
#[tactic(auto, unfolding(crate::specs::FileReading::head, crate::specs::Kinds::same_keyword))]
pub(crate) fn head(alloc: Global, tokens: &mut Tokens<'_>) -> Result<Head, Stop>
    ensures { Reads (spec.head tokens.old) result tokens.new }
{
    let start = tokens.here();
    match tokens.peek() {
        TokenKind::Keyword(Keyword::Import) => imported(alloc, tokens, start),
        TokenKind::Keyword(Keyword::From) => from_file(alloc, tokens, start),
        TokenKind::Str(_) => Ok(Head::Docs(text(tokens)?)),
        _ => {
            tokens.expect_keyword(Keyword::Pass)?;
            Ok(Head::Pass(tokens.since(start)))
        }
    }
}

/// Whether a head begins with it.
#[tactic(auto, unfolding(crate::specs::Kinds::same_keyword))]
pub(crate) fn starts_head(kind: TokenKind) -> bool
    ensures { result ≡ spec.starts_head kind }
{
    matches!(
        kind,
        TokenKind::Str(_) | TokenKind::Keyword(Keyword::Import | Keyword::From | Keyword::Pass)
    )
}

impl LinePart for Head {
    ghost starts = { spec.starts_head };

    ghost reader = { λ _. spec.head };

    fn is_start(kind: TokenKind) -> bool {
        starts_head(kind)
    }

    fn part(alloc: Global, tokens: &mut Tokens<'_>, _depth: usize) -> Result<Head, Stop> {
        head(alloc, tokens)
    }
}
