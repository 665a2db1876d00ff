//! Literals.
ghost use Rattle.std.specs.Prelude.{◌≡◌, Ok};
ghost use Rattle.ato_parser.specs.Input.{Reads, and_then, pure};
ghost use Rattle.ato_parser.specs.Placing.{placed_from};
ghost use Rattle.ato_parser.specs.Reading as spec;
ghost use Rattle.ato_parser.specs.Kinds as kinds;
ghost use Rattle.ato_parser.specs.Input as input;
ghost use Rattle.ato_parser.specs.Expressions.{unit_written};

use crate::cursor::Tokens;
use crate::kinds::unit_of;
use crate::numbers::number;
use crate::stop::Stop;
use ato_ast::{Literal, Part, Unit};
use ato_base::{Keyword, Mark, Span};

/// A unit, if there is one.
fn unit(tokens: &mut Tokens<'_>) -> Option<Unit>
    ensures { and_then (input.optional (spec.has kinds.unit_of) (input.one kinds.unit_of) tokens.old) (λ u. pure (unit_written u)) ≡ Ok (result, tokens.new) }
{
    let unit = unit_of(tokens.peek());
    if unit.is_some() {
        tokens.take();
    }
    unit
}

/// A number and maybe a unit, whose place begins at `start`.
#[tactic(auto, unfolding(crate::specs::Reading::measured))]
fn measured(tokens: &mut Tokens<'_>, start: Span, minus: bool) -> Result<Part, Stop>
    ensures { Reads (placed_from start (spec.measured minus) tokens.old) result tokens.new }
{
    let (number, _) = number(tokens)?;
    let unit = unit(tokens);
    Ok(Part {
        minus,
        number,
        unit,
        at: tokens.since(start),
    })
}

/// `[ "-" ] NUMBER [ UNIT ]`.
#[tactic(auto, unfolding(crate::specs::Reading::quantity))]
fn quantity(tokens: &mut Tokens<'_>) -> Result<Part, Stop>
    ensures { Reads (spec.quantity tokens.old) result tokens.new }
{
    let start = tokens.here();
    let minus = tokens.eat(Mark::Minus);
    measured(tokens, start, minus)
}

/// `NUMBER [ UNIT ]`.
#[tactic(auto, unfolding(crate::specs::Reading::tolerance))]
fn tolerance(tokens: &mut Tokens<'_>) -> Result<Part, Stop>
    ensures { Reads (spec.tolerance tokens.old) result tokens.new }
{
    let start = tokens.here();
    measured(tokens, start, false)
}

/// `QUANTITY`, `QUANTITY to QUANTITY` or `QUANTITY +/- TOLERANCE`.
#[tactic(auto, unfolding(crate::specs::Reading::literal))]
pub(crate) fn literal(tokens: &mut Tokens<'_>) -> Result<Literal, Stop>
    ensures { Reads (spec.literal tokens.old) result tokens.new }
{
    let first = quantity(tokens)?;
    if tokens.eat_keyword(Keyword::To) {
        return Ok(Literal::To(first, quantity(tokens)?));
    }
    if tokens.eat(Mark::PlusMinus) {
        return Ok(Literal::About(first, tolerance(tokens)?));
    }
    Ok(Literal::One(first))
}
