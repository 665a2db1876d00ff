//! Lines.
ghost use Rattle.std.specs.Prelude.{◌≡◌, ℕ, Bool};
ghost use Rattle.ato_base.specs.declared.tokens.TokenKind.{TokenKind};
ghost use Rattle.ato_parser.specs.Input.{Reads, Reader};
ghost use Rattle.ato_parser.specs.Parts.{parts_of};
ghost use Rattle.ato_parser.specs.FileReading as spec;

use crate::cursor::Tokens;
use crate::stop::Stop;
use ato_ast::Line;
use ato_base::{List, Mark, TokenKind};
use std::alloc::Global;

/// What stands on a line, with semicolons between.
pub(crate) trait LinePart: Drop + Sized {
    /// Whether a kind of token begins one.
    ghost starts: { TokenKind → Bool };

    /// How one is read, with parentheses so deep.
    ghost reader: { ℕ → Reader Self };

    /// Whether a part begins with it.
    fn is_start(kind: TokenKind) -> bool
        ensures { result ≡ starts kind };

    /// A part.
    fn part(alloc: Global, tokens: &mut Tokens<'_>, depth: usize) -> Result<Self, Stop>
        ensures { Reads (reader depth tokens.old) result tokens.new };
}

/// The parts of a line whose first is read, and whether a semicolon stands at the end.
fn parts<P: LinePart>(
    alloc: Global,
    tokens: &mut Tokens<'_>,
    depth: usize,
    first: P,
) -> Result<(List<P>, bool), Stop>
    ensures { Reads (parts_of P.starts (P.reader depth) first tokens.old) result tokens.new }
{
    let mut found = List::with_capacity(alloc, 1)?;
    found.push(first)?;
    for _turn in 0..tokens.left() {
        if !tokens.eat(Mark::Semicolon) {
            return Ok((found, false));
        }
        if !P::is_start(tokens.peek()) {
            return Ok((found, true));
        }
        let next = P::part(alloc, tokens, depth)?;
        found.push(next)?;
    }
    Ok((found, false))
}

/// `PART { ";" PART } [ ";" ]` to the end of the line.
#[tactic(auto, unfolding(crate::specs::FileReading::line))]
pub(crate) fn line<P: LinePart>(
    alloc: Global,
    tokens: &mut Tokens<'_>,
    depth: usize,
) -> Result<Line<P>, Stop>
    ensures { Reads (spec.line P.starts (P.reader depth) tokens.old) result tokens.new }
{
    let first = P::part(alloc, tokens, depth)?;
    let (parts, tail) = parts(alloc, tokens, depth, first)?;
    tokens.expect_newline()?;
    Ok(Line { parts, tail })
}
