//! Reading the texts of literals: one part, two ends, or a nominal value and a tolerance.
ghost use Rattle.std.specs.Prelude.{◌≡◌, ◌↔◌, Err, MatchOption, option_map};
ghost use Rattle.std.specs.Str.{chars, encode_utf8_all};
ghost use Rattle.ato_units.specs.declared.quantities.QuantityFault.TheVariants as faults;
ghost use Rattle.ato_units.specs.LiteralReading.{with_unit, front_unsigned, after_sign, front_part, whole, from_token, read_literal, next_token};
ghost use Rattle.ato_units.specs.Literals.{Literal, IsLiteral};
ghost use Rattle.ato_units.specs.Parts.{written};
ghost use Rattle.ato_units.specs.Spellings.{spelled, cut_part, cut_token, spelled_literal, HasNumber, IsWritten, LiteralGives};

use crate::quantities::{Form, Quantity, QuantityFault, WrittenPart, from_parts};
use crate::tokens::{Token, is_all_blank, next_token};
use ato_frac::Frac;

/// The quantity of a literal's text. Spaces and tabs, and nothing else, may stand around it and
/// between its tokens. `BadText` exactly where the text is no literal; else the first fault of its parts,
/// in the order that `combine` has. The text is gone through a fixed number of times.
#[tactic(auto, using(crate::proofs::LiteralAnswers::gives_if, crate::proofs::LiteralAnswers::bad_text_if))]
pub fn read_quantity(text: &str) -> Result<Quantity, QuantityFault>
    ensures bad_text { (result ≡ Err faults.BadText) ↔ ((literal : Literal) → ¬ IsLiteral (chars text.now) literal) }
    ensures gives { (literal : Literal) → IsLiteral (chars text.now) literal → LiteralGives literal result }
{
    read_text(text)
}

/// The quantity of a text, by what it is read as.
fn read_text(text: &str) -> Result<Quantity, QuantityFault>
    ensures { MatchOption (read_literal (chars text.now)) (result ≡ Err faults.BadText) (λ literal. LiteralGives literal result) }
{
    let Some(literal) = read_literal(text) else {
        return Err(QuantityFault::BadText)
    };
    quantity_of(&literal)
}

/// A part as it is spelled: whether a minus sign stands before it, its number and its unit.
#[derive(Clone, Copy)]
pub(crate) struct SpelledPart<'a> {
    negative: bool,
    digits: &'a str,
    unit: Option<&'a str>,
}

/// A literal as it is spelled. One part counts as both.
#[derive(Clone, Copy)]
pub(crate) struct SpelledLiteral<'a> {
    form: Form,
    first: SpelledPart<'a>,
    second: SpelledPart<'a>,
}

/// The quantity of a literal, or the first fault of its parts.
fn quantity_of(literal: &SpelledLiteral) -> Result<Quantity, QuantityFault>
    ensures { LiteralGives (spelled_literal literal.now) result }
{
    let first = written_part(&literal.first);
    let second = written_part(&literal.second);
    match from_parts(literal.form, &first, &second) {
        Ok(quantity) => Ok(quantity),
        Err((fault, _)) => Err(fault),
    }
}

/// A part with its number.
fn written_part<'a>(part: &SpelledPart<'a>) -> WrittenPart<'a>
    ensures { IsWritten (spelled part.now) (written result) }
{
    let unit = match part.unit {
        None => None,
        Some(text) => Some(as_text(text)),
    };
    WrittenPart {
        number: number_of(part.negative, part.digits),
        unit,
    }
}

/// The text itself, which is the UTF-8 of its characters.
fn as_text(text: &str) -> &str
    ensures { result.now ≡ encode_utf8_all (chars text.now) }
{
    text
}

/// The number of digits with a sign. None where a fraction is too narrow for it.
fn number_of(negative: bool, digits: &str) -> Option<Frac>
    ensures { HasNumber negative (encode_utf8_all (chars digits.now)) result }
{
    match Frac::from_decimal(digits.as_bytes()) {
        Err(_) => None,
        Ok(size) => Some(if negative { size.opposite() } else { size }),
    }
}

/// The literal that a text is.
#[tactic(auto, unfolding(crate::specs::LiteralReading::read_literal))]
fn read_literal(text: &str) -> Option<SpelledLiteral>
    ensures { option_map spelled_literal result ≡ read_literal (chars text.now) }
{
    let (first, rest) = front_part(text)?;
    match next_token(rest) {
        None => whole(Form::One, first, Some((first, rest))),
        Some((Token::To, after)) => whole(Form::To, first, front_part(after)),
        Some((Token::PlusMinus, after)) => whole(Form::About, first, front_unsigned(false, after)),
        Some(_) => None,
    }
}

/// A literal, where nothing but blanks follows its second part.
fn whole<'a>(
    form: Form,
    first: SpelledPart<'a>,
    second: Option<(SpelledPart<'a>, &'a str)>,
) -> Option<SpelledLiteral<'a>>
    ensures { option_map spelled_literal result ≡ whole form (spelled first.entry) (option_map cut_part second.entry) }
{
    let (second, rest) = second?;
    if is_all_blank(rest) {
        Some(SpelledLiteral {
            form,
            first,
            second,
        })
    } else {
        None
    }
}

/// A part that may have a minus sign before its number, and what follows.
#[tactic(auto, unfolding(crate::specs::LiteralReading::front_part))]
fn front_part(text: &str) -> Option<(SpelledPart, &str)>
    ensures { option_map cut_part result ≡ front_part (chars text.now) }
{
    match next_token(text) {
        Some((Token::Minus, after)) => front_unsigned(true, after),
        _ => front_unsigned(false, text),
    }
}

/// A number, and a unit or none, and what follows.
#[tactic(auto, unfolding(crate::specs::LiteralReading::front_unsigned))]
fn front_unsigned(negative: bool, text: &str) -> Option<(SpelledPart, &str)>
    ensures { option_map cut_part result ≡ front_unsigned negative (chars text.now) }
{
    match next_token(text)? {
        (Token::Number(digits), rest) => Some(with_unit(negative, digits, rest)),
        _ => None,
    }
}

/// A number with the unit that follows it, if one does, and what follows.
fn with_unit<'a>(negative: bool, digits: &'a str, rest: &'a str) -> (SpelledPart<'a>, &'a str)
    ensures { cut_part result ≡ with_unit negative (chars digits.now) (chars rest.now) (next_token (chars rest.now)) }
{
    match next_token(rest) {
        Some((Token::Unit(unit), after)) => (
            SpelledPart {
                negative,
                digits,
                unit: Some(unit),
            },
            after,
        ),
        _ => (
            SpelledPart {
                negative,
                digits,
                unit: None,
            },
            rest,
        ),
    }
}
