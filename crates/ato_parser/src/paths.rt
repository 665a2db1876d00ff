//! Paths.
ghost use Rattle.std.specs.Prelude.{◌≡◌, ◌∷◌};
ghost use Rattle.ato_base.specs.declared.keywords.Mark.TheVariants as marks;
ghost use Rattle.ato_parser.specs.Input.{Reads, and_then, pure, ended, one};
ghost use Rattle.ato_parser.specs.Kinds.{integer_of};
ghost use Rattle.ato_parser.specs.Expressions.{pin_kind};
ghost use Rattle.ato_parser.specs.Reading as spec;

use crate::cursor::Tokens;
use crate::kinds::is_name;
use crate::names::name;
use crate::numbers::pin;
use crate::stop::Stop;
use ato_ast::{Named, Path};
use ato_base::{List, Mark, TokenKind};
use std::alloc::Global;

/// The steps of a path whose first is read, and the number of a pin at its end.
fn steps(
    alloc: Global,
    tokens: &mut Tokens<'_>,
    first: Named,
) -> Result<(List<Named>, Option<TokenKind>), Stop>
    ensures { Reads (and_then (ended marks.Dot spec.is_name spec.name (one integer_of) tokens.old)
        (λ rest. pure (first ∷ rest.0, pin_kind rest.1))) result tokens.new }
{
    let mut steps = List::new(alloc);
    steps.push(first)?;
    for _turn in 0..tokens.left() {
        if !tokens.eat(Mark::Dot) {
            return Ok((steps, None));
        }
        if !is_name(tokens.peek()) {
            return Ok((steps, Some(pin(tokens)?)));
        }
        steps.push(name(tokens)?)?;
    }
    Ok((steps, None))
}

/// `NAME { "." NAME } [ "." INTEGER ]`.
#[tactic(auto, unfolding(crate::specs::Reading::path))]
pub(crate) fn path(alloc: Global, tokens: &mut Tokens<'_>) -> Result<Path, Stop>
    ensures { Reads (spec.path tokens.old) result tokens.new }
{
    let start = tokens.here();
    let first = name(tokens)?;
    let (steps, pin) = steps(alloc, tokens, first)?;
    Ok(Path {
        steps,
        pin,
        at: tokens.since(start),
    })
}

/// The name that a path is alone.
pub(crate) fn only_name(path: &Path) -> Option<Named>
    ensures { result ≡ spec.only_name path.now }
{
    if path.pin.is_some() {
        return None;
    }
    match path.steps.as_slice() {
        [name] => Some(*name),
        _ => None,
    }
}
