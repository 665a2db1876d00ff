//! The tokens of literals, each spelled as long as it can be.
ghost use Rattle.std.specs.Prelude.{◌≡◌, ◌<◌, ◌∷◌, option_map, length};
ghost use Rattle.std.specs.Char.{is_ascii_digit};
ghost use Rattle.std.specs.Str.{chars};
ghost use Rattle.unicode_ident.specs.Ident.{is_xid_continue};
ghost use Rattle.ato_units.specs.Literals.{is_blank, number, word_token};
ghost use Rattle.ato_units.specs.LiteralReading.{is_nothing, past, before, begins_with_digit, past_fraction, past_sign, past_exponent, past_number, past_minus, past_slash, front_mark, front_token, next_token};
ghost use Rattle.ato_units.specs.Spellings.{HasEnd, spelled_token, cut_token};

use ato_base::{first_char, is_keyword};
use unicode_ident::{is_xid_continue, is_xid_start};

/// A token of a literal, or a keyword that stands in none.
#[derive(Clone, Copy)]
pub(crate) enum Token<'a> {
    Number(&'a str),
    Unit(&'a str),
    To,
    PlusMinus,
    Minus,
    Keyword,
}

fn is_blank(character: char) -> bool
    ensures { result ≡ is_blank character }
{
    character == ' ' || character == '\t'
}

/// What follows the blanks at the front.
#[tactic(auto, using(crate::proofs::Cutting::past_goes, crate::proofs::Cutting::past_stops, crate::proofs::Cutting::past_none))]
fn past_blanks(text: &str) -> &str
    ensures { chars result.now ≡ past is_blank (chars text.now) }
{
    let mut rest = text;
    while let Some((next, after)) = first_char(rest) {
        if !is_blank(next) {
            return rest;
        }
        rest = after;
    }
    rest
}

/// Whether a text is nothing but blanks.
pub(crate) fn is_all_blank(text: &str) -> bool
    ensures { result ≡ is_nothing (past is_blank (chars text.now)) }
{
    match first_char(past_blanks(text)) {
        None => true,
        Some(_) => false,
    }
}

/// What follows the digits at the front.
#[tactic(auto, using(crate::proofs::Cutting::past_goes, crate::proofs::Cutting::past_stops, crate::proofs::Cutting::past_none))]
fn past_digits(text: &str) -> &str
    ensures { chars result.now ≡ past is_ascii_digit (chars text.now) }
{
    let mut rest = text;
    while let Some((next, after)) = first_char(rest) {
        if !next.is_ascii_digit() {
            return rest;
        }
        rest = after;
    }
    rest
}

/// What follows the characters at the front that may continue a name.
#[tactic(auto, using(crate::proofs::Cutting::past_goes, crate::proofs::Cutting::past_stops, crate::proofs::Cutting::past_none))]
pub fn past_word(text: &str) -> &str
    ensures { chars result.now ≡ past is_xid_continue (chars text.now) }
{
    let mut rest = text;
    while let Some((next, after)) = first_char(rest) {
        if !is_xid_continue(next) {
            return rest;
        }
        rest = after;
    }
    rest
}

fn begins_with_digit(text: &str) -> bool
    ensures { result ≡ begins_with_digit (chars text.now) }
{
    match first_char(text) {
        None => false,
        Some((first, _)) => first.is_ascii_digit(),
    }
}

/// What follows a point and digits, if they stand at the front.
fn past_fraction(text: &str) -> &str
    ensures { chars result.now ≡ past_fraction (chars text.now) }
{
    match first_char(text) {
        None => text,
        Some((first, after)) => {
            if first == '.' && begins_with_digit(after) {
                past_digits(after)
            } else {
                text
            }
        }
    }
}

/// What follows a sign, if it stands at the front.
fn past_sign(text: &str) -> &str
    ensures { chars result.now ≡ past_sign (chars text.now) }
{
    match first_char(text) {
        None => text,
        Some((first, after)) => {
            if first == '+' || first == '-' {
                after
            } else {
                text
            }
        }
    }
}

/// What follows `e` or `E`, a sign or none, and digits, if they stand at the front.
fn past_exponent(text: &str) -> &str
    ensures { chars result.now ≡ past_exponent (chars text.now) }
{
    match first_char(text) {
        None => text,
        Some((first, after)) => {
            let digits = past_sign(after);
            if (first == 'e' || first == 'E') && begins_with_digit(digits) {
                past_digits(digits)
            } else {
                text
            }
        }
    }
}

/// What follows the number at the front, the longest.
#[tactic(auto, unfolding(crate::specs::LiteralReading::past_number))]
pub fn past_number(text: &str) -> &str
    ensures { chars result.now ≡ past_number (chars text.now) }
{
    past_exponent(past_fraction(past_digits(text)))
}

/// The front of a text, before what follows it.
pub fn before<'a>(text: &'a str, rest: &str) -> &'a str
    requires { HasEnd (chars text.now) (chars rest.now) }
    ensures { chars result.now ≡ before (chars text.now) (chars rest.now) }
{
    text.split_at(text.len() - rest.len()).0
}

/// The number at the front of a text that begins with a digit.
fn front_number(text: &str) -> (Token, &str)
    ensures { cut_token result ≡ (number (before (chars text.now) (past_number (chars text.now))), past_number (chars text.now)) }
{
    let rest = past_number(text);
    (Token::Number(before(text, rest)), rest)
}

/// The token of a word.
fn word_token(text: &str) -> Token
    ensures { spelled_token result ≡ word_token (chars text.now) }
{
    if text == "to" {
        Token::To
    } else if is_keyword(text.as_bytes()) {
        Token::Keyword
    } else {
        Token::Unit(text)
    }
}

/// The word at the front of a text, whose first character is cut off `after`.
fn front_word<'a>(text: &'a str, after: &'a str) -> (Token<'a>, &'a str)
    requires { HasEnd (chars text.now) (chars after.now) }
    ensures { cut_token result ≡ (word_token (before (chars text.now) (past is_xid_continue (chars after.now))), past is_xid_continue (chars after.now)) }
{
    let rest = past_word(after);
    (word_token(before(text, rest)), rest)
}

/// What follows the character, if it stands at the front.
fn past_minus(text: &str) -> Option<&str>
    ensures { option_map (λ rest. chars rest.now) result ≡ past_minus (chars text.now) }
{
    match first_char(text) {
        Some(('-', rest)) => Some(rest),
        _ => None,
    }
}

fn past_slash(text: &str) -> Option<&str>
    ensures { option_map (λ rest. chars rest.now) result ≡ past_slash (chars text.now) }
{
    match first_char(text) {
        Some(('/', rest)) => past_minus(rest),
        _ => None,
    }
}

/// The mark at the front of a text, whose first character is cut off `after`.
fn front_mark<'a>(text: &'a str, first: char, after: &'a str) -> Option<(Token<'a>, &'a str)>
    requires { chars text.now ≡ first ∷ chars after.now }
    ensures { option_map cut_token result ≡ front_mark first (chars after.now) }
{
    match first {
        '%' => Some((Token::Unit(before(text, after)), after)),
        '-' => Some((Token::Minus, after)),
        '\u{B1}' => Some((Token::PlusMinus, after)),
        '+' => match past_slash(after) {
            Some(rest) => Some((Token::PlusMinus, rest)),
            None => None,
        },
        _ => None,
    }
}

/// The token at the front, and what follows.
#[tactic(auto, unfolding(crate::specs::LiteralReading::front_token))]
fn front_token(text: &str) -> Option<(Token, &str)>
    ensures { option_map cut_token result ≡ front_token (chars text.now) }
{
    let (first, after) = first_char(text)?;
    if first.is_ascii_digit() {
        Some(front_number(text))
    } else if is_xid_start(first) || first == '_' {
        Some(front_word(text, after))
    } else {
        front_mark(text, first, after)
    }
}

/// The token that comes next, after blanks, and what follows.
pub(crate) fn next_token(text: &str) -> Option<(Token, &str)>
    ensures { option_map cut_token result ≡ next_token (chars text.now) }
{
    front_token(past_blanks(text))
}
