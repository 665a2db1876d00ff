//! The first line of a block that passes a test, by its byte.
ghost use Rattle.std.specs.Prelude.{◌≡◌, ◌++◌, ◌∷◌, ◌+◌, ◌<◌, ◌^◌, true, false, not, ℕ, List, Bool, MatchOption, length};
ghost use Rattle.std.specs.List.{list_any, list_all};
ghost use Rattle.std.specs.Option.{option_copied};
ghost use Rattle.ato_first.specs.FirstForm.{lined, line_text, lines_text, end_text, point_text, is_line, is_short_number};
ghost use Rattle.ato_first.specs.declared.first_form.Line.{Line};
ghost use Rattle.ato_first_catalog.specs.Ranges.{digits_value};
ghost use Rattle.ato_first.specs.FirstPoints.{is_other, is_unknown, is_unknown_end};
ghost use Rattle.ato_first.specs.FirstParts.{is_empty_range};

use crate::first_form::{Assertion, End, Line, Point};
use crate::text_set::TextSet;
use ato_base::Text;
use ato_first_catalog::number;

/// A test of a line.
pub(crate) trait LineTest {
    // which lines pass
    ghost test: { Self → Line → Bool };

    /// Whether the line passes.
    fn passes(&self, line: &Line) -> bool
        requires { is_line line.now ≡ true }
        ensures { result ≡ test self.now line.now };
}

/// Whether a line mentions a name that is no signal or not the attribute.
#[derive(Drop)]
pub(crate) struct UnknownName<'a> {
    pub signals: &'a TextSet,
    pub attribute: Option<&'a Text>,
}

/// Whether a line asserts a range whose low end is above its high end.
#[derive(Drop)]
pub(crate) struct EmptyRange;

fn is_unknown_end(signals: &TextSet, end: &End) -> bool
    ensures { result ≡ is_unknown_end signals.now end.now }
{
    match end {
        End::Name(name) => !signals.contains(name.as_str()),
        End::Declared(_) => false,
    }
}

/// Whether a name is another one than the attribute, or there is no attribute.
fn is_other(attribute: Option<&Text>, name: &str) -> bool
    ensures { result ≡ is_other (option_copied attribute.entry) name.now }
{
    match attribute {
        None => true,
        Some(attribute) => attribute.as_str() != name,
    }
}

impl<'a> LineTest for UnknownName<'a> {
    ghost test = { λ it. is_unknown it.signals.now (option_copied it.attribute) };

    fn passes(&self, line: &Line) -> bool {
        match line {
            Line::Pass => false,
            Line::Declaration(_) => false,
            Line::Join(left, right) => {
                is_unknown_end(self.signals, left) || is_unknown_end(self.signals, right)
            }
            Line::Kind(_) => false,
            Line::Attribute(_) => false,
            Line::Assertion(asserted) => is_other(self.attribute, asserted.name.as_str()),
        }
    }
}

/// The number of 1 to 18 digits.
#[tactic(auto, using(crate::proofs::FirstLineLemmas::short_number))]
fn number_of(digits: &str) -> u64
    requires { is_short_number digits.now ≡ true }
    ensures { result ≡ digits_value digits.now }
{
    match number(digits.as_bytes()) {
        Some(value) => value,
        None => unreachable!(),
    }
}

/// The values between which an assertion wants the attribute.
pub(crate) fn ends_of(asserted: &Assertion) -> (u64, u64)
    requires { is_line (Line.Assertion asserted.now) ≡ true }
    ensures { result ≡ (digits_value asserted.now.low, digits_value asserted.now.high) }
{
    (
        number_of(asserted.low.as_str()),
        number_of(asserted.high.as_str()),
    )
}

impl LineTest for EmptyRange {
    ghost test = { λ _. is_empty_range };

    fn passes(&self, line: &Line) -> bool {
        match line {
            Line::Assertion(asserted) => {
                let (low, high) = ends_of(asserted);
                high < low
            }
            _ => false,
        }
    }
}

fn point_size(point: &Point) -> usize
    requires { length (point_text point.now) < 2 ^ 32 }
    ensures { result ≡ length (point_text point.now) }
{
    match point {
        Point::Signal(name) => 7 + name.as_str().len(),
        Point::Pin(label) => 4 + label.as_str().len(),
    }
}

fn end_size(end: &End) -> usize
    requires { length (end_text end.now) < 2 ^ 32 }
    ensures { result ≡ length (end_text end.now) }
{
    match end {
        End::Name(name) => name.as_str().len(),
        End::Declared(point) => point_size(point),
    }
}

/// How many bytes a line has, with its line end.
fn line_size(line: &Line) -> usize
    requires { length (lined (line_text line.now)) < 2 ^ 32 }
    ensures { result ≡ length (lined (line_text line.now)) }
{
    match line {
        Line::Pass => 9,
        Line::Declaration(point) => 5 + point_size(point),
        Line::Join(left, right) => 8 + end_size(left) + end_size(right),
        Line::Kind(text) => 14 + text.as_str().len(),
        Line::Attribute(name) => 20 + name.as_str().len(),
        Line::Assertion(asserted) => {
            24 + asserted.name.as_str().len()
                + asserted.low.as_str().len()
                + asserted.high.as_str().len()
        }
    }
}

/// The first byte of the first line that passes, where the lines begin at a byte.
pub(crate) fn first_line<T: LineTest>(test: &T, lines: &[Line], start: usize) -> Option<usize>
    requires form { list_all is_line lines.now ≡ true }
    requires size { start + length (lines_text lines.now) < 2 ^ 32 }
    ensures { MatchOption result (list_any (T.test test.now) lines.now ≡ false)
        (λ at. (front : List Line) × (line : Line) × (back : List Line) × (lines.now ≡ front ++ line ∷ back)
        × (list_any (T.test test.now) front ≡ false) × (T.test test.now line ≡ true) × (at ≡ start + length (lines_text front))) }
{
    let mut at = start;
    for line in lines {
        if test.passes(line) {
            return Some(at);
        }
        at += line_size(line);
    }
    None
}
