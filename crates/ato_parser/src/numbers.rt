//! Numbers.
ghost use Rattle.ato_parser.specs.Input.{Reads, one, and_then, pure};
ghost use Rattle.ato_parser.specs.Kinds as kinds;
ghost use Rattle.ato_parser.specs.Expressions.{number_kind};

use crate::cursor::Tokens;
use crate::kinds::{exponent_of, integer_of, number_of};
use crate::stop::Stop;
use ato_ast::Number;
use ato_base::{Span, TokenKind};

/// A number, and where it stands.
pub(crate) fn number(tokens: &mut Tokens<'_>) -> Result<(Number, Span), Stop>
    ensures { Reads (one kinds.number_of tokens.old) result tokens.new }
{
    match number_of(tokens.peek()) {
        Some(number) => Ok((number, tokens.take())),
        None => Err(tokens.refuse()),
    }
}

/// A whole number, and where it stands.
pub(crate) fn integer(tokens: &mut Tokens<'_>) -> Result<(Number, Span), Stop>
    ensures { Reads (one kinds.integer_of tokens.old) result tokens.new }
{
    match integer_of(tokens.peek()) {
        Some(number) => Ok((number, tokens.take())),
        None => Err(tokens.refuse()),
    }
}

/// A whole number from 1 to 16, and where it stands.
pub(crate) fn exponent(tokens: &mut Tokens<'_>) -> Result<(Number, Span), Stop>
    ensures { Reads (one kinds.exponent_of tokens.old) result tokens.new }
{
    match exponent_of(tokens.peek()) {
        Some(number) => Ok((number, tokens.take())),
        None => Err(tokens.refuse()),
    }
}

/// The kind of a whole number, as the pin of a path.
pub(crate) fn pin(tokens: &mut Tokens<'_>) -> Result<TokenKind, Stop>
    ensures { Reads (and_then (one kinds.integer_of tokens.old) (λ n. pure (number_kind n.0))) result tokens.new }
{
    let (Number { whole, small, at }, _) = integer(tokens)?;
    Ok(TokenKind::Number { whole, small, at })
}
