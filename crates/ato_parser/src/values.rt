//! What is assigned, and what is asserted.
ghost use Rattle.std.specs.Prelude.{◌≡◌};
ghost use Rattle.ato_base.specs.declared.keywords.Mark.TheVariants as marks;
ghost use Rattle.ato_parser.specs.Input.{Reads};
ghost use Rattle.ato_parser.specs.Parts.{more_behind};
ghost use Rattle.ato_parser.specs.Reading as spec;

use crate::cursor::Tokens;
use crate::exprs::sum;
use crate::kinds::comparison_of;
use crate::literals::literal;
use crate::names::text;
use crate::stop::Stop;
use ato_ast::{Compare, Literal, Value};
use ato_base::{Keyword, List, Mark, TokenKind};
use std::alloc::Global;

/// A value that is assigned.
#[tactic(auto, unfolding(crate::specs::Reading::value))]
pub(crate) fn value(alloc: Global, tokens: &mut Tokens<'_>, depth: usize) -> Result<Value, Stop>
    ensures { Reads (spec.value depth tokens.old) result tokens.new }
{
    match tokens.peek() {
        TokenKind::Str(_) => Ok(Value::Text(text(tokens)?)),
        TokenKind::Keyword(Keyword::True) => Ok(Value::Truth(true, tokens.take())),
        TokenKind::Keyword(Keyword::False) => Ok(Value::Truth(false, tokens.take())),
        _ => Ok(Value::Expr(sum(alloc, tokens, depth)?)),
    }
}

/// The first literal of some, and those behind it, each behind `|`.
fn more_literals(
    alloc: Global,
    tokens: &mut Tokens<'_>,
    first: Literal,
) -> Result<List<Literal>, Stop>
    ensures { Reads (more_behind marks.Bar spec.literal first tokens.old) result tokens.new }
{
    let mut found = List::new(alloc);
    found.push(first)?;
    for _turn in 0..tokens.left() {
        if !tokens.eat(Mark::Bar) {
            break;
        }
        let next = literal(tokens)?;
        found.push(next)?;
    }
    Ok(found)
}

/// What is asserted of an expression.
#[tactic(auto, unfolding(crate::specs::Reading::compare))]
pub(crate) fn compare(alloc: Global, tokens: &mut Tokens<'_>, depth: usize) -> Result<Compare, Stop>
    ensures { Reads (spec.compare depth tokens.old) result tokens.new }
{
    if let Some(comparison) = comparison_of(tokens.peek()) {
        tokens.take();
        return Ok(Compare::Sides(comparison, sum(alloc, tokens, depth)?));
    }
    tokens.expect_keyword(Keyword::Within)?;
    let first = literal(tokens)?;
    Ok(Compare::Within(more_literals(alloc, tokens, first)?))
}
