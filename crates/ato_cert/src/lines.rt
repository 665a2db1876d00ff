//! The lines of a pick tree.
ghost use Rattle.std.specs.Prelude.{◌≡◌, ◌++◌, ◌∷◌, ◌^◌, ◌<◌, [], ℕ, List, codes, Some, IsSomeAnd, IfSome, IfOk, MatchResult, IsTrue, ◌↔◌};
ghost use Rattle.std.specs.List.{flat_map};
ghost use Rattle.std.specs.Fmt.{decimal};
ghost use Rattle.ato_frac.specs.declared.fraction.Frac as frac;
ghost use Rattle.ato_cert.specs.Texts.{number_word, fraction_word};
ghost use Rattle.ato_cert.specs.Reading.{line_text, HasSmallNumbers, IsLineOver, Reads, ReadsNothing, Because};
ghost use Rattle.ato_cert.specs.declared.line.Line as the;
ghost use Rattle.ato_cert.specs.declared.line.Line.TheVariants.{Empty, Row, Fails};

use crate::line::{Line, ReadFault};
use crate::numbers::{fraction, number};
use crate::pieces::after;
use crate::writing::line_text;
use ato_base::{List, NoMemory};
use ato_frac::Frac;
use std::alloc::Global;

/// The line with a slot, after its word.
fn empty_guess(text: &[u8]) -> Option<Line>
    ensures { (slot : ℕ) (rest : List ℕ) → slot < 2 ^ 32 → text.now ≡ decimal slot ++ (10 ∷ rest) → result ≡ Some (Empty slot) }
{
    match number(text) {
        Some((slot, _)) => Some(Line::Empty(slot)),
        None => None,
    }
}

/// The line with a slot and a row number, after its word.
fn row_guess(text: &[u8]) -> Option<Line>
    ensures { (slot row : ℕ) (rest : List ℕ) → slot < 2 ^ 32 → row < 2 ^ 32
        → text.now ≡ decimal slot ++ (32 ∷ (decimal row ++ (10 ∷ rest))) → result ≡ Some (Row slot row) }
{
    let (slot, rest) = number(text)?;
    match after(rest, b" ") {
        Some(rest) => row_of_slot(slot, rest),
        None => None,
    }
}

fn row_of_slot(slot: u32, text: &[u8]) -> Option<Line>
    ensures { (row : ℕ) (rest : List ℕ) → row < 2 ^ 32 → text.now ≡ decimal row ++ (10 ∷ rest) → result ≡ Some (Row slot row) }
{
    match number(text) {
        Some((row, _)) => Some(Line::Row(slot, row)),
        None => None,
    }
}

/// The fractions up to the end of a line, each after a blank.
fn fractions(alloc: Global, text: &[u8]) -> Result<Option<List<Frac>>, NoMemory>
    ensures { IfOk result (λ guess. (point : List frac.Frac) (rest : List ℕ)
        → text.now ≡ flat_map fraction_word point ++ (10 ∷ rest) → guess ≡ Some point) }
{
    let mut point = List::new(alloc);
    let mut rest = text;
    while let Some(word) = after(rest, b" ") {
        match fraction(word) {
            Some((fraction, behind)) => {
                point.push(fraction)?;
                rest = behind;
            }
            None => return Ok(None),
        }
    }
    Ok(Some(point))
}

/// The line with a check and fractions, after its word.
fn fails_guess(alloc: Global, text: &[u8]) -> Result<Option<Line>, NoMemory>
    ensures { IfOk result (λ guess. (check : ℕ) (point : List frac.Frac) (rest : List ℕ) → check < 2 ^ 32
        → text.now ≡ decimal check ++ (flat_map fraction_word point ++ (10 ∷ rest)) → guess ≡ Some (Fails check point)) }
{
    match number(text) {
        Some((check, rest)) => match fractions(alloc, rest)? {
            Some(point) => Ok(Some(Line::Fails(check, point))),
            None => Ok(None),
        },
        None => Ok(None),
    }
}

/// The one line of a tree that may stand first.
fn line_guess(alloc: Global, text: &[u8]) -> Result<Option<Line>, NoMemory>
    ensures { IfOk result (λ guess. (line : the.Line) (rest : List ℕ) → HasSmallNumbers line
        → text.now ≡ line_text line ++ rest → guess ≡ Some line) }
{
    if let Some(rest) = after(text, b"empty ") {
        return Ok(empty_guess(rest));
    }
    if let Some(rest) = after(text, b"row ") {
        return Ok(row_guess(rest));
    }
    if let Some(rest) = after(text, b"fails ") {
        return fails_guess(alloc, rest);
    }
    Ok(None)
}

/// Whether the slot or the check of a line is there, and a row has room below it.
fn is_line_over(count: u32, above: u32, line: &Line) -> bool
    ensures { IsTrue result ↔ IsLineOver count above line.now }
{
    match line {
        Line::Empty(slot) => 1 <= *slot && *slot <= count,
        Line::Row(slot, row) => {
            let _row = *row;
            1 <= *slot && *slot <= count && 1 <= above
        }
        Line::Fails(check, _) => 1 <= *check && *check <= count,
    }
}

/// The line of a tree that stands first, and what follows. A line is read as its numbers, and then is
/// compared with what these are written as.
pub(crate) fn read_line(
    alloc: Global,
    count: u32,
    above: u32,
    text: &[u8],
) -> Result<(Line, &[u8]), ReadFault>
    ensures { MatchResult result
        (λ r. Reads (IsLineOver count above) line_text text.now r.0 r.1.now)
        (Because (ReadsNothing (IsLineOver count above) line_text text.now)) }
{
    let Some(line) = line_guess(alloc, text)? else {
        return Err(ReadFault::At(text.len()))
    };
    if !is_line_over(count, above, &line) {
        return Err(ReadFault::At(text.len()));
    }
    let written = line_text(alloc, &line)?;
    match after(text, written.as_slice()) {
        Some(rest) => Ok((line, rest)),
        None => Err(ReadFault::At(text.len())),
    }
}
