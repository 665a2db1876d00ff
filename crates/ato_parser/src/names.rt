//! Names and strings.
ghost use Rattle.ato_parser.specs.Input.{Reads};
ghost use Rattle.ato_parser.specs.Reading as spec;

use crate::cursor::Tokens;
use crate::kinds::{name_of, text_of};
use crate::stop::Stop;
use ato_ast::{Named, Quoted};

/// `NAME`.
#[tactic(auto, unfolding(crate::specs::Reading::name))]
pub(crate) fn name(tokens: &mut Tokens<'_>) -> Result<Named, Stop>
    ensures { Reads (spec.name tokens.old) result tokens.new }
{
    match name_of(tokens.peek()) {
        Some(name) => Ok(Named {
            name,
            at: tokens.take(),
        }),
        None => Err(tokens.refuse()),
    }
}

/// `STRING`.
#[tactic(auto, unfolding(crate::specs::Reading::text))]
pub(crate) fn text(tokens: &mut Tokens<'_>) -> Result<Quoted, Stop>
    ensures { Reads (spec.text tokens.old) result tokens.new }
{
    match text_of(tokens.peek()) {
        Some(contents) => Ok(Quoted {
            contents,
            at: tokens.take(),
        }),
        None => Err(tokens.refuse()),
    }
}
