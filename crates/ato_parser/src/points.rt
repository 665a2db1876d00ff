//! Points, their labels, and the ends of connections.
ghost use Rattle.std.specs.Prelude.{◌≡◌};
ghost use Rattle.ato_parser.specs.Input.{Reads};
ghost use Rattle.ato_parser.specs.Reading as spec;

use crate::cursor::Tokens;
use crate::names::{name, text};
use crate::numbers::integer;
use crate::paths::path;
use crate::stop::Stop;
use ato_ast::{End, Label, Point};
use ato_base::{Keyword, TokenKind};
use std::alloc::Global;

/// The label of a pin.
#[tactic(auto, unfolding(crate::specs::Reading::label))]
fn label(tokens: &mut Tokens<'_>) -> Result<Label, Stop>
    ensures { Reads (spec.label tokens.old) result tokens.new }
{
    match tokens.peek() {
        TokenKind::Name(_) => Ok(Label::Name(name(tokens)?)),
        TokenKind::Str(_) => Ok(Label::Text(text(tokens)?)),
        _ => {
            let (number, at) = integer(tokens)?;
            Ok(Label::Number(number, at))
        }
    }
}

/// A point that is declared.
#[tactic(auto, unfolding(crate::specs::Reading::point, crate::specs::Kinds::same_keyword))]
pub(crate) fn point(tokens: &mut Tokens<'_>) -> Result<Point, Stop>
    ensures { Reads (spec.point tokens.old) result tokens.new }
{
    let start = tokens.here();
    match tokens.peek() {
        TokenKind::Keyword(Keyword::Signal) => {
            tokens.take();
            let found = name(tokens)?;
            Ok(Point::Signal(found, tokens.since(start)))
        }
        TokenKind::Keyword(Keyword::Pin) => {
            tokens.take();
            let found = label(tokens)?;
            Ok(Point::Pin(found, tokens.since(start)))
        }
        _ => Err(tokens.refuse()),
    }
}

/// An end of a connection.
#[tactic(auto, unfolding(crate::specs::Reading::connected, crate::specs::Kinds::same_keyword))]
pub(crate) fn connected(alloc: Global, tokens: &mut Tokens<'_>) -> Result<End, Stop>
    ensures { Reads (spec.connected tokens.old) result tokens.new }
{
    match tokens.peek() {
        TokenKind::Keyword(Keyword::Signal | Keyword::Pin) => Ok(End::Point(point(tokens)?)),
        _ => Ok(End::Path(path(alloc, tokens)?)),
    }
}
