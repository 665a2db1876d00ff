ghost use Rattle.std.specs.Prelude.{◌≡◌, ◌++◌, ◌==◌, MatchOption, false, true, ℕ, List};
ghost use Rattle.std.specs.List.{list_any};
ghost use Rattle.ato_first.specs.FirstForm.{lined, point_text, end_text, line_text, is_point, is_end, is_line, head_text, is_ascii_name, is_label, NoLine};
ghost use Rattle.ato_first.specs.Statements.{read_point, read_end, read_line, IsPointText, IsEndText, IsStatement, with_tilde, words_text};
ghost use Rattle.ato_first.specs.declared.first_form.Point.{Point};
ghost use Rattle.ato_first.specs.declared.first_form.End.{End};
ghost use Rattle.ato_first.specs.declared.first_form.Line.{Line};

use crate::names::is_short_number;
use crate::part_lines::{assertion_of, attribute_of, kind_of};
use crate::pieces::{after, before, cut, first_line, name_of};
use crate::statements::{EndText, PointText, Statement};

/// The name in the first line of a file.
pub(crate) fn head_of(text: &[u8]) -> Option<&str>
    ensures { MatchOption result ((name : List ℕ) → is_ascii_name name ≡ true → text.now ≡ head_text name → ⊥)
        (λ name. (is_ascii_name name.now ≡ true) × (text.now ≡ head_text name.now)) }
{
    match after(text, b"component ") {
        None => None,
        Some(rest) => match before(rest, b":") {
            None => None,
            Some(name) => name_of(name),
        },
    }
}

fn signal_of(name: &[u8]) -> Option<PointText<'_>>
    ensures { MatchOption result (is_ascii_name name.now ≡ false) (λ found. (read_point found ≡ Point.Signal name.now) × IsPointText found) }
{
    match name_of(name) {
        None => None,
        Some(name) => Some(PointText::Signal(name)),
    }
}

fn pin_of(label: &[u8]) -> Option<PointText<'_>>
    ensures { MatchOption result (is_label label.now ≡ false) (λ found. (read_point found ≡ Point.Pin label.now) × IsPointText found) }
{
    if let Some(name) = name_of(label) {
        return Some(PointText::NamedPin(name));
    }
    if is_short_number(label) {
        Some(PointText::NumberedPin(label))
    } else {
        None
    }
}

/// The point that a text declares.
fn point_of(text: &[u8]) -> Option<PointText<'_>>
    ensures { MatchOption result
        ((point : Point) → is_point point ≡ true → text.now ≡ point_text point → ⊥)
        (λ found. (text.now ≡ point_text (read_point found)) × IsPointText found) }
{
    if let Some(name) = after(text, b"signal ") {
        return signal_of(name);
    }
    if let Some(label) = after(text, b"pin ") {
        return pin_of(label);
    }
    None
}

/// The end of a join that a text is.
fn end_of(text: &[u8]) -> Option<EndText<'_>>
    ensures { MatchOption result
        ((end : End) → is_end end ≡ true → text.now ≡ end_text end → ⊥)
        (λ found. (text.now ≡ end_text (read_end found)) × IsEndText found) }
{
    if let Some(point) = point_of(text) {
        return Some(EndText::Declared(point));
    }
    match name_of(text) {
        None => None,
        Some(name) => Some(EndText::Name(name)),
    }
}

/// What stands before and after the first sign of a join, which has a blank at both sides.
fn sides(text: &[u8]) -> Option<(&[u8], &[u8])>
    ensures { MatchOption result
        ((left right : List ℕ) → list_any (λ b. b == 126) left ≡ false → text.now ≡ with_tilde left right → ⊥)
        (λ sides. (text.now ≡ with_tilde sides.0.now sides.1.now) × (list_any (λ b. b == 126) sides.0.now ≡ false)) }
{
    let (front, back) = cut(text, b'~')?;
    let left = before(front, b" ")?;
    let right = after(back, b" ")?;
    Some((left, right))
}

/// The two ends that a text joins.
fn join_of(text: &[u8]) -> Option<(EndText<'_>, EndText<'_>)>
    ensures { MatchOption result
        ((left right : End) → is_end left ≡ true → is_end right ≡ true → text.now ≡ with_tilde (end_text left) (end_text right) → ⊥)
        (λ ends. (text.now ≡ with_tilde (end_text (read_end ends.0)) (end_text (read_end ends.1))) × IsEndText ends.0 × IsEndText ends.1) }
{
    let (left, right) = sides(text)?;
    Some((end_of(left)?, end_of(right)?))
}

/// The statement that a line is, behind its indentation.
fn words_of(text: &[u8]) -> Option<Statement<'_>>
    ensures { MatchOption result
        ((line : Line) → is_line line ≡ true → text.now ≡ words_text line → ⊥)
        (λ found. (text.now ≡ words_text (read_line found)) × IsStatement found) }
{
    if text == b"pass".as_slice() {
        return Some(Statement::Pass);
    }
    if let Some(point) = point_of(text) {
        return Some(Statement::Declaration(point));
    }
    if let Some(text) = kind_of(text) {
        return Some(Statement::Kind(text));
    }
    if let Some(name) = attribute_of(text) {
        return Some(Statement::Attribute(name));
    }
    if let Some(assertion) = assertion_of(text) {
        return Some(Statement::Assertion(assertion));
    }
    match join_of(text) {
        None => None,
        Some((left, right)) => Some(Statement::Join(left, right)),
    }
}

/// The statement that a line is.
#[tactic(auto, using(crate::proofs::FirstFormLemmas::indented))]
fn statement_of(text: &[u8]) -> Option<Statement<'_>>
    ensures { MatchOption result
        ((line : Line) → is_line line ≡ true → text.now ≡ line_text line → ⊥)
        (λ found. (text.now ≡ line_text (read_line found)) × IsStatement found) }
{
    match after(text, b"    ") {
        None => None,
        Some(words) => words_of(words),
    }
}

/// The statement at the front, and what comes after its line.
#[tactic(auto, using(crate::proofs::FirstFormLemmas::no_line_end, crate::proofs::FirstFormLemmas::other_line))]
pub(crate) fn next_statement(bytes: &[u8]) -> Option<(Statement<'_>, &[u8])>
    ensures { MatchOption result (NoLine bytes.now)
        (λ next. (bytes.now ≡ lined (line_text (read_line next.0)) ++ next.1.now) × IsStatement next.0) }
{
    match first_line(bytes) {
        None => None,
        Some((text, rest)) => match statement_of(text) {
            None => None,
            Some(statement) => Some((statement, rest)),
        },
    }
}
