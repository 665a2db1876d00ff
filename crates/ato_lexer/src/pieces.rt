//! What a piece of a text is, and what follows the piece in front.
ghost use Rattle.std.specs.Prelude.{◌≡◌, ◌<◌, ◌∷◌, [], MatchOption, option_map, option_and_then, drop, length};
ghost use Rattle.std.specs.List.{find};
ghost use Rattle.std.specs.Str.{chars, bytes_eq};
ghost use Rattle.unicode_ident.specs.Ident.{is_xid_continue};
ghost use Rattle.ato_base.specs.Keywords.{keyword_text};
ghost use Rattle.ato_units.specs.LiteralReading.{past, before};
ghost use Rattle.ato_units.specs.Spellings.{HasEnd};
ghost use Rattle.ato_lexer.specs.Pieces.{word_kind, front_of};
ghost use Rattle.ato_lexer.specs.Reading.{GoesOn, past_char, past_two, past_three, is_in_line, after_quote, after_three, read_quoted, longer_or, read_mark, feed_or_bad, read_token, read_front};
ghost use Rattle.ato_lexer.specs.Shapes.{kind_of_shape, cut_told};

use ato_base::{Keyword, Mark, Span, first_char};
use ato_units::{before, past_number, past_word};
use unicode_ident::is_xid_start;

/// What a piece of a text is.
#[derive(Clone, Copy, Debug, PartialEq, Eq)]
pub(crate) enum Shape {
    /// A space or a tab.
    Blank,
    /// From `#` up to the end of the line.
    Comment,
    LineEnd,
    Name,
    Keyword(Keyword),
    Number,
    /// A string with so many quotes at each end: one or three.
    Str(u32),
    Mark(Mark),
    /// A character that begins nothing.
    BadChar,
    /// The first quote of a string that has no end.
    OpenString,
}

/// A piece of a file: what it is, how it is spelled, and where it stands.
#[derive(Clone, Copy)]
pub(crate) struct Piece<'a> {
    pub(crate) shape: Shape,
    pub(crate) text: &'a str,
    pub(crate) at: Span,
}

/// What follows a character, if it stands in front.
pub(crate) fn past_char(text: &str, wanted: char) -> Option<&str>
    ensures { option_map (λ rest. chars rest.now) result ≡ past_char wanted (chars text.now) }
{
    match first_char(text) {
        Some((first, rest)) if first == wanted => Some(rest),
        _ => None,
    }
}

/// What follows two of a character, if they stand in front.
fn past_two(text: &str, wanted: char) -> Option<&str>
    ensures { option_map (λ rest. chars rest.now) result ≡ past_two wanted (chars text.now) }
{
    past_char(past_char(text, wanted)?, wanted)
}

/// What follows three of a character, if they stand in front.
fn past_three(text: &str, wanted: char) -> Option<&str>
    ensures { option_map (λ rest. chars rest.now) result ≡ past_three wanted (chars text.now) }
{
    past_two(past_char(text, wanted)?, wanted)
}

/// What follows the rest of a line: its line feed, or nothing.
#[tactic(auto, using(crate::proofs::ReadingLemmas::line_goes, crate::proofs::ReadingLemmas::line_stops, crate::proofs::ReadingLemmas::line_none))]
fn past_line(text: &str) -> &str
    ensures { chars result.now ≡ past is_in_line (chars text.now) }
{
    let mut rest = text;
    while let Some((next, after)) = first_char(rest) {
        if next == '\n' {
            return rest;
        }
        rest = after;
    }
    rest
}

/// What follows the next of this quote, where no line ends before it.
#[tactic(auto, using(crate::proofs::ReadingLemmas::quote_goes, crate::proofs::ReadingLemmas::quote_found, crate::proofs::ReadingLemmas::quote_line_end, crate::proofs::ReadingLemmas::quote_none))]
fn after_quote(text: &str, quote: char) -> Option<&str>
    ensures { option_map (λ rest. chars rest.now) result ≡ after_quote quote (chars text.now) }
{
    let mut rest = text;
    while let Some((next, after)) = first_char(rest) {
        if next == quote {
            return Some(after);
        }
        if next == '\n' {
            return None;
        }
        rest = after;
    }
    None
}

/// What follows the next three of this quote.
#[tactic(auto, using(crate::proofs::ReadingLemmas::three_goes, crate::proofs::ReadingLemmas::three_found, crate::proofs::ReadingLemmas::three_none))]
fn after_three(text: &str, quote: char) -> Option<&str>
    ensures { option_map (λ rest. chars rest.now) result ≡ after_three quote (chars text.now) }
{
    let mut rest = text;
    while let Some((_, after)) = first_char(rest) {
        if let Some(behind) = past_three(rest, quote) {
            return Some(behind);
        }
        rest = after;
    }
    None
}

/// A string whose first quote is cut off, and what follows it.
fn string(quote: char, after: &str) -> (Shape, &str)
    ensures { cut_told result ≡ read_quoted quote (chars after.now) (past_two quote (chars after.now)) }
{
    match past_two(after, quote) {
        None => match after_quote(after, quote) {
            None => (Shape::OpenString, after),
            Some(rest) => (Shape::Str(1), rest),
        },
        Some(inner) => match after_three(inner, quote) {
            None => (Shape::OpenString, after),
            Some(rest) => (Shape::Str(3), rest),
        },
    }
}

/// One mark where this character comes next, or else another.
fn longer_or(after: &str, next: char, long: Mark, short: Mark) -> (Shape, &str)
    ensures { cut_told result ≡ longer_or long short (chars after.now) (past_char next (chars after.now)) }
{
    match past_char(after, next) {
        None => (Shape::Mark(short), after),
        Some(rest) => (Shape::Mark(long), rest),
    }
}

/// `+/-`, or `+` alone.
fn plus(after: &str) -> (Shape, &str)
    ensures { cut_told result ≡ longer_or Mark.PlusMinus Mark.Plus (chars after.now) (option_and_then (past_char 45) (past_char 47 (chars after.now))) }
{
    match past_char(after, '/') {
        None => (Shape::Mark(Mark::Plus), after),
        Some(behind) => match past_char(behind, '-') {
            None => (Shape::Mark(Mark::Plus), after),
            Some(rest) => (Shape::Mark(Mark::PlusMinus), rest),
        },
    }
}

/// The mark that begins with a character, and what follows it.
#[tactic(auto, unfolding(crate::specs::Reading::read_mark))]
fn mark(first: char, after: &str) -> (Shape, &str)
    ensures { cut_told result ≡ read_mark first (chars after.now) }
{
    match first {
        '+' => plus(after),
        '-' => longer_or(after, '>', Mark::Arrow, Mark::Minus),
        '*' => longer_or(after, '*', Mark::Power, Mark::Star),
        '<' => longer_or(after, '=', Mark::LessEqual, Mark::Less),
        '>' => longer_or(after, '=', Mark::GreaterEqual, Mark::Greater),
        '\u{B1}' => (Shape::Mark(Mark::PlusMinus), after),
        '=' => (Shape::Mark(Mark::Equal), after),
        '~' => (Shape::Mark(Mark::Tilde), after),
        ':' => (Shape::Mark(Mark::Colon), after),
        ';' => (Shape::Mark(Mark::Semicolon), after),
        ',' => (Shape::Mark(Mark::Comma), after),
        '.' => (Shape::Mark(Mark::Dot), after),
        '(' => (Shape::Mark(Mark::LeftParenthesis), after),
        ')' => (Shape::Mark(Mark::RightParenthesis), after),
        '[' => (Shape::Mark(Mark::LeftBracket), after),
        ']' => (Shape::Mark(Mark::RightBracket), after),
        '/' => (Shape::Mark(Mark::Slash), after),
        '|' => (Shape::Mark(Mark::Bar), after),
        '%' => (Shape::Mark(Mark::Percent), after),
        _ => (Shape::BadChar, after),
    }
}

/// A line end whose carriage return is cut off, or this alone.
fn feed_or_bad(after: &str) -> (Shape, &str)
    ensures { cut_told result ≡ feed_or_bad (chars after.now) (past_char 10 (chars after.now)) }
{
    match past_char(after, '\n') {
        None => (Shape::BadChar, after),
        Some(rest) => (Shape::LineEnd, rest),
    }
}

/// The keywords.
const KEYWORDS: &[Keyword] = &[
    Keyword::Module,
    Keyword::Component,
    Keyword::Interface,
    Keyword::From,
    Keyword::Import,
    Keyword::New,
    Keyword::Signal,
    Keyword::Pin,
    Keyword::Assert,
    Keyword::Within,
    Keyword::Is,
    Keyword::To,
    Keyword::Pass,
    Keyword::For,
    Keyword::In,
    Keyword::True,
    Keyword::False,
];

/// The one of some keywords that is written so, if there is one.
fn keyword_among(text: &[u8], keywords: &[Keyword]) -> Option<Keyword>
    ensures { result ≡ find (λ keyword. bytes_eq text.now (keyword_text keyword)) keywords.now }
{
    keywords
        .iter()
        .copied()
        .find(|keyword| text == keyword.spelling().as_bytes())
}

/// The keyword that is written so, or a name.
fn word_shape(text: &str) -> Shape
    ensures { kind_of_shape result ≡ word_kind (chars text.now) }
{
    match keyword_among(text.as_bytes(), KEYWORDS) {
        None => Shape::Name,
        Some(keyword) => Shape::Keyword(keyword),
    }
}

/// The word in front of a text, whose first character is cut off `after`, and what follows it.
fn word<'a>(text: &'a str, after: &'a str) -> (Shape, &'a str)
    requires { HasEnd (chars text.now) (chars after.now) }
    ensures { cut_told result ≡ (word_kind (before (chars text.now) (past is_xid_continue (chars after.now))), past is_xid_continue (chars after.now)) }
{
    let rest = past_word(after);
    (word_shape(before(text, rest)), rest)
}

/// A number, a word or a mark, whose first character is cut off `after`, and what follows it.
fn token<'a>(text: &'a str, first: char, after: &'a str) -> (Shape, &'a str)
    requires { chars text.now ≡ first ∷ chars after.now }
    ensures { cut_told result ≡ read_token first (chars after.now) }
{
    if first.is_ascii_digit() {
        (Shape::Number, past_number(text))
    } else if is_xid_start(first) || first == '_' {
        word(text, after)
    } else {
        mark(first, after)
    }
}

/// The piece that begins with a character, which is cut off `after`, and what follows it.
#[tactic(auto, unfolding(crate::specs::Reading::read_front))]
fn cut_piece<'a>(text: &'a str, first: char, after: &'a str) -> (Shape, &'a str)
    requires { chars text.now ≡ first ∷ chars after.now }
    ensures { cut_told result ≡ read_front first (chars after.now) }
{
    match first {
        ' ' | '\t' => (Shape::Blank, after),
        '\n' => (Shape::LineEnd, after),
        '\r' => feed_or_bad(after),
        '#' => (Shape::Comment, past_line(after)),
        '"' | '\'' => string(first, after),
        _ => token(text, first, after),
    }
}

/// What a text goes on with behind one character or more: it has fewer bytes.
fn end_of<'a>(text: &str, rest: &'a str) -> &'a str
    requires { GoesOn (chars text.now) (chars rest.now) }
    ensures same { result.now ≡ rest.now }
    ensures shorter { length result.now < length text.now }
{
    rest
}

/// The piece in front of a text, and what follows it.
pub(crate) fn front(text: &str) -> Option<(Shape, &str)>
    ensures cut { MatchOption result (chars text.now ≡ []) (λ cut. (kind_of_shape cut.0 ≡ (front_of (chars text.now)).kind) × (chars cut.1.now ≡ drop (length (front_of (chars text.now)).text) (chars text.now))) }
    ensures shorter { MatchOption result (length text.now ≡ 0) (λ cut. length cut.1.now < length text.now) }
{
    let (first, after) = first_char(text)?;
    let (shape, rest) = cut_piece(text, first, after);
    Some((shape, end_of(text, rest)))
}
