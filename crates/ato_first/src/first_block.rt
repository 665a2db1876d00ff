ghost use Rattle.std.specs.Prelude.{◌≡◌, ◌≤◌, ◌∷◌, ◌++◌, [], IfOk, List, ℕ, Option, All, length};
ghost use Rattle.std.specs.Str.{IsAscii};
ghost use Rattle.ato_base.specs.declared.places.FileId.{FileId};
ghost use Rattle.ato_first.specs.declared.first_form.Block.{Block};
ghost use Rattle.ato_first.specs.FirstForm.{IsFile};
ghost use Rattle.ato_first.specs.FirstTokens.{AreTokens};
ghost use Rattle.ato_first.specs.FirstBlock.{IsPlaceWithin, IsPlaced, spelled_text, between, body_tokens, end_of, word_of, declared, closed, keyword_step, mark_step, text_step, kind_step, tokens_read};

use crate::first_form::{Assertion, Block, End, Line, Point};
use ato_base::{Keyword, List, Mark, NoMemory, Span, Text, Token, TokenKind};
use std::alloc::Global;

/// What the next name or number of a line is.
#[derive(Clone, Copy, Debug, PartialEq, Eq)]
pub(crate) enum Opening {
    /// A name that some line declares.
    Bare,
    /// The name of a signal.
    Signal,
    /// The label of a pin.
    Pin,
    /// The greatest value that an assertion allows.
    Limit,
}

/// What was read of a file so far: its lines, and the ends of the line that is being read.
#[derive(Debug, Drop)]
pub(crate) struct Reading {
    pub opening: Opening,
    pub left: Option<End>,
    pub right: Option<End>,
    pub lines: List<Line>,
}

fn between(lines: List<Line>) -> Reading
    ensures { result ≡ between lines }
{
    Reading {
        opening: Opening::Bare,
        left: None,
        right: None,
        lines,
    }
}

/// The text of ASCII bytes.
fn ascii_text(alloc: Global, bytes: &[u8]) -> Result<Text, NoMemory>
    requires { IsAscii bytes.now }
    ensures { IfOk result (λ text. text ≡ bytes.now) }
{
    match str::from_utf8(bytes) {
        Ok(text) => Text::copy(alloc, text),
        Err(_) => unreachable!(),
    }
}

/// What stands at a place of the source.
fn spelled_text(alloc: Global, source: &[u8], at: Span) -> Result<Text, NoMemory>
    requires ascii { IsAscii source.now }
    requires within { IsPlaceWithin source.now at }
    ensures { IfOk result (λ text. text ≡ spelled_text source.now at) }
{
    ascii_text(alloc, &source[at.start as usize..at.end as usize])
}

fn end_of(opening: Opening, text: Text) -> End
    ensures { result ≡ end_of opening text }
{
    match opening {
        Opening::Bare => End::Name(text),
        Opening::Signal => End::Declared(Point::Signal(text)),
        Opening::Pin => End::Declared(Point::Pin(text)),
        Opening::Limit => End::Name(text),
    }
}

/// The name or number that an end is.
fn word_of(alloc: Global, end: Option<End>) -> Text
    ensures { result ≡ word_of end }
{
    match end {
        None => Text::new(alloc),
        Some(end) => match end {
            End::Name(text) => text,
            End::Declared(_) => Text::new(alloc),
        },
    }
}

/// The lines after the declaration of an attribute.
fn declared(name: Option<End>, lines: List<Line>) -> Result<List<Line>, NoMemory>
    ensures { IfOk result (λ after. after ≡ declared name lines) }
{
    let mut lines = lines;
    match name {
        None => {}
        Some(end) => match end {
            End::Name(name) => lines.push(Line::Attribute(name))?,
            End::Declared(_) => {}
        },
    }
    Ok(lines)
}

/// The lines after one whose ends are these.
fn closed(left: Option<End>, right: Option<End>, lines: List<Line>) -> Result<List<Line>, NoMemory>
    ensures { IfOk result (λ after. after ≡ closed left right lines) }
{
    let mut lines = lines;
    match left {
        None => match right {
            None => {}
            Some(end) => match end {
                End::Name(_) => {}
                End::Declared(point) => lines.push(Line::Declaration(point))?,
            },
        },
        Some(left) => match right {
            None => {}
            Some(right) => lines.push(Line::Join(left, right))?,
        },
    }
    Ok(lines)
}

fn keyword_step(reading: Reading, keyword: Keyword) -> Result<Reading, NoMemory>
    ensures { IfOk result (λ after. after ≡ keyword_step reading keyword) }
{
    let Reading {
        opening: _,
        left,
        right,
        mut lines,
    } = reading;
    match keyword {
        Keyword::Pass => {
            lines.push(Line::Pass)?;
            Ok(between(lines))
        }
        Keyword::Signal => Ok(Reading {
            opening: Opening::Signal,
            left,
            right: None,
            lines,
        }),
        Keyword::Pin => Ok(Reading {
            opening: Opening::Pin,
            left,
            right: None,
            lines,
        }),
        Keyword::Within => Ok(Reading {
            opening: Opening::Bare,
            left: right,
            right: None,
            lines,
        }),
        Keyword::To => Ok(Reading {
            opening: Opening::Limit,
            left,
            right,
            lines,
        }),
        _ => Ok(between(lines)),
    }
}

fn mark_step(reading: Reading, mark: Mark) -> Result<Reading, NoMemory>
    ensures { IfOk result (λ after. after ≡ mark_step reading mark) }
{
    let Reading {
        opening: _,
        left: _,
        right,
        lines,
    } = reading;
    match mark {
        Mark::Tilde => Ok(Reading {
            opening: Opening::Bare,
            left: right,
            right: None,
            lines,
        }),
        Mark::Colon => Ok(between(declared(right, lines)?)),
        _ => Ok(between(lines)),
    }
}

/// The lines after an assertion.
fn asserted(lines: List<Line>, name: Text, low: Text, high: Text) -> Result<List<Line>, NoMemory>
    ensures { IfOk result (λ after. after ≡ lines ++ Line.Assertion (record { name = name; low = low; high = high }) ∷ []) }
{
    let mut lines = lines;
    lines.push(Line::Assertion(Assertion { name, low, high }))?;
    Ok(lines)
}

fn text_step(alloc: Global, reading: Reading, text: Text) -> Result<Reading, NoMemory>
    ensures { IfOk result (λ after. after ≡ text_step reading text) }
{
    let Reading {
        opening,
        left,
        right,
        lines,
    } = reading;
    match opening {
        Opening::Limit => {
            let name = word_of(alloc, left);
            let low = word_of(alloc, right);
            Ok(between(asserted(lines, name, low, text)?))
        }
        _ => Ok(Reading {
            opening: Opening::Bare,
            left,
            right: Some(end_of(opening, text)),
            lines,
        }),
    }
}

/// What is read after the text of a kind.
fn kind_step(reading: Reading, text: Text) -> Result<Reading, NoMemory>
    ensures { IfOk result (λ after. after ≡ between (reading.lines ++ Line.Kind text ∷ [])) }
{
    let mut lines = reading.lines;
    lines.push(Line::Kind(text))?;
    Ok(between(lines))
}

fn newline_step(reading: Reading) -> Result<Reading, NoMemory>
    ensures { IfOk result (λ after. after ≡ between (closed reading.left reading.right reading.lines)) }
{
    let Reading {
        opening: _,
        left,
        right,
        lines,
    } = reading;
    Ok(between(closed(left, right, lines)?))
}

/// What is read after one more token.
fn step(alloc: Global, source: &[u8], reading: Reading, token: Token) -> Result<Reading, NoMemory>
    requires ascii { IsAscii source.now }
    requires placed { IsPlaced source.now token }
    ensures { IfOk result (λ after. after ≡ kind_step source.now reading token.kind token.at) }
{
    match token.kind {
        TokenKind::Keyword(keyword) => keyword_step(reading, keyword),
        TokenKind::Mark(mark) => mark_step(reading, mark),
        TokenKind::Name(_) => text_step(alloc, reading, spelled_text(alloc, source, token.at)?),
        TokenKind::Number { .. } => {
            text_step(alloc, reading, spelled_text(alloc, source, token.at)?)
        }
        TokenKind::Str(contents) => kind_step(reading, spelled_text(alloc, source, contents)?),
        TokenKind::Newline => newline_step(reading),
        _ => Ok(between(reading.lines)),
    }
}

/// What is read of the tokens.
fn read_tokens(alloc: Global, source: &[u8], tokens: &[Token]) -> Result<Reading, NoMemory>
    requires ascii { IsAscii source.now }
    requires placed { All (IsPlaced source.now) tokens.now }
    ensures { IfOk result (λ after. after ≡ tokens_read source.now (between []) tokens.now) }
{
    let mut reading = between(List::new(alloc));
    for token in tokens {
        reading = step(alloc, source, reading, *token)?;
    }
    Ok(reading)
}

/// The tokens behind those of the first line and of the indentation.
fn body_tokens(tokens: &[Token]) -> &[Token]
    requires { 5 ≤ length tokens.now }
    ensures { result.now ≡ body_tokens tokens.now }
{
    &tokens[5..]
}

/// The block that the tokens of a file spell, if it is not empty.
pub fn read_block(alloc: Global, source: &[u8], tokens: &[Token]) -> Result<Option<Block>, NoMemory>
    requires { (file : FileId) × (names : List (List ℕ)) × (block : Option Block) × AreTokens source.now file names tokens.now block }
    ensures { IfOk result (IsFile source.now) }
{
    if tokens.len() < 5 {
        return Ok(None);
    }
    let name = spelled_text(alloc, source, tokens[1].at)?;
    let Reading { lines, .. } = read_tokens(alloc, source, body_tokens(tokens))?;
    Ok(Some(Block { name, lines }))
}
