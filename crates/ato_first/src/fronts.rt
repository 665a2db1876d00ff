ghost use Rattle.std.specs.Prelude.{◌≡◌, ◌++◌, ◌+◌, ◌≤◌, ◌<◌, ◌^◌, ◌∷◌, [], ℕ, List, MatchOption, IfSome, Some, None, true, false, length, not, ◌&&◌, ◌||◌, is_some, ◌==◌};
ghost use Rattle.std.specs.List.{list_all, list_any};
ghost use Rattle.std.specs.Str.{bytes_eq};
ghost use Rattle.ato_first.specs.FirstForm.{lined, line_text, lines_text, is_line, bad_line, NoNext};
ghost use Rattle.ato_first.specs.PartLines.{AreOnce, before_attribute, is_attribute_signal, point_signals, end_signals, line_signals, is_signal};
ghost use Rattle.ato_first.specs.Statements.{read_point, read_end, read_line, IsStatement, IsFound, IsWholeFront};
ghost use Rattle.ato_first.specs.declared.first_form.Line.{Line};

use crate::lines::next_statement;
use crate::statements::{EndText, PointText, Statement};

/// An attribute that is declared, and the byte at which its line begins.
#[derive(Clone, Copy, Debug)]
struct Declared<'a> {
    name: &'a str,
    at: usize,
}

/// Which of the three lines of a part stand among the lines that were read.
#[derive(Clone, Copy, Debug)]
pub(crate) struct Found<'a> {
    kind: bool,
    attribute: Option<Declared<'a>>,
    assertion: bool,
}

impl<'a> Found<'a> {
    /// No line was read.
    fn nothing() -> Found<'a>
        ensures { (front : ℕ) → IsFound result front [] }
    {
        Found {
            kind: false,
            attribute: None,
            assertion: false,
        }
    }

    /// What stands there with one more line, which begins at a byte of the file; none where the line
    /// is a second of those that stand at most once.
    fn and(self, at: usize, statement: Statement<'a>) -> Option<Found<'a>>
        ensures { (place : ℕ) (lines : List Line) → AreOnce lines → IsFound self.entry place lines
            → at ≡ place + length (lines_text lines)
            → MatchOption result (AreOnce (lines ++ read_line statement.entry ∷ []) → ⊥)
            (λ found. AreOnce (lines ++ read_line statement.entry ∷ [])
            × IsFound found place (lines ++ read_line statement.entry ∷ [])) }
    {
        match statement {
            Statement::Kind(_) if self.kind => None,
            Statement::Kind(_) => Some(Found { kind: true, ..self }),
            Statement::Attribute(name) => match self.attribute {
                Some(_) => None,
                None => Some(Found {
                    attribute: Some(Declared { name, at }),
                    ..self
                }),
            },
            Statement::Assertion(_) if self.assertion => None,
            Statement::Assertion(_) => Some(Found {
                assertion: true,
                ..self
            }),
            Statement::Pass => Some(self),
            Statement::Declaration(_) => Some(self),
            Statement::Join(_, _) => Some(self),
        }
    }

    /// Where the line of the attribute begins, if its name is that of a signal. The bytes are those of
    /// the lines.
    fn clash(self, bytes: &[u8]) -> Option<usize>
        ensures { (place : ℕ) (lines : List Line) → list_all is_line lines ≡ true → AreOnce lines
            → IsFound self.entry place lines → bytes.now ≡ lines_text lines
            → MatchOption result (is_attribute_signal lines ≡ false)
            (λ at. (is_attribute_signal lines ≡ true) × (at ≡ place + length (lines_text (before_attribute lines)))) }
    {
        match self.attribute {
            None => None,
            Some(attribute) => {
                if is_signal(bytes, attribute.name) {
                    Some(attribute.at)
                } else {
                    None
                }
            }
        }
    }

    /// Whether some of the three lines stand there, but not all.
    fn is_partial(self) -> bool
        ensures { result ≡ ((self.entry.kind || is_some self.entry.attribute || self.entry.assertion)
            && not (self.entry.kind && is_some self.entry.attribute && self.entry.assertion)) }
    {
        let attribute = self.attribute.is_some();
        (self.kind || attribute || self.assertion) && !(self.kind && attribute && self.assertion)
    }
}

fn point_declares(point: PointText, name: &str) -> bool
    ensures { result ≡ list_any (bytes_eq name.now) (point_signals (read_point point.entry)) }
{
    match point {
        PointText::Signal(signal) => name == signal,
        _ => false,
    }
}

fn end_declares(end: EndText, name: &str) -> bool
    ensures { result ≡ list_any (bytes_eq name.now) (end_signals (read_end end.entry)) }
{
    match end {
        EndText::Name(_) => false,
        EndText::Declared(point) => point_declares(point, name),
    }
}

/// Whether a line declares a signal of a name.
fn declares(statement: Statement, name: &str) -> bool
    ensures { result ≡ list_any (bytes_eq name.now) (line_signals (read_line statement.entry)) }
{
    match statement {
        Statement::Declaration(point) => point_declares(point, name),
        Statement::Join(left, right) => end_declares(left, name) || end_declares(right, name),
        _ => false,
    }
}

/// Whether one of the lines that the bytes are declares a signal of a name.
fn is_signal(bytes: &[u8], name: &str) -> bool
    ensures { (lines : List Line) → list_all is_line lines ≡ true → bytes.now ≡ lines_text lines
        → result ≡ is_signal lines name.now }
{
    let mut found = false;
    let mut rest = bytes;
    while let Some((statement, more)) = next_statement(rest) {
        found |= declares(statement, name);
        rest = more;
    }
    found
}

/// The lines at the front of a block that follow one another in the form: which of a part's lines stand
/// among them, and what comes after them.
#[derive(Clone, Copy, Debug)]
pub(crate) struct Front<'a> {
    pub(crate) found: Found<'a>,
    pub(crate) rest: &'a [u8],
}

impl<'a> Front<'a> {
    /// No line of the bytes.
    pub(crate) fn new(bytes: &'a [u8]) -> Front<'a>
        ensures rest { result.rest.now ≡ bytes.now }
        ensures found { (place : ℕ) → IsFound result.found place [] }
    {
        let found = Found::nothing();
        Front { found, rest: bytes }
    }

    /// The next line, which begins at a byte of the file, and the front with it.
    pub(crate) fn next(self, at: usize) -> Option<(Statement<'a>, Front<'a>)>
        ensures line { IfSome result (λ next.
            (self.entry.rest.now ≡ lined (line_text (read_line next.0)) ++ next.1.rest.now) × IsStatement next.0) }
        ensures front { (place : ℕ) (lines : List Line) → AreOnce lines → IsFound self.entry.found place lines
            → at ≡ place + length (lines_text lines)
            → MatchOption result (NoNext lines self.entry.rest.now)
            (λ next. AreOnce (lines ++ read_line next.0 ∷ []) × IsFound next.1.found place (lines ++ read_line next.0 ∷ [])) }
    {
        match next_statement(self.rest) {
            None => None,
            Some((statement, rest)) => match self.found.and(at, statement) {
                None => None,
                Some(found) => Some((statement, Front { found, rest })),
            },
        }
    }

    /// Whether bytes are left, or there is no line in the size of the lines.
    fn is_cut(self, size: usize) -> bool
        ensures { result ≡ (not (length self.entry.rest.now == 0) || (size == 0)) }
    {
        self.rest.len() != 0 || size == 0
    }

    /// Where the first bad line of the file begins, if there is one. The bytes are those of the block
    /// behind its first line, of which the first is at a place of the file.
    pub(crate) fn bad_line(self, place: usize, bytes: &[u8]) -> Option<usize>
        requires size { place + length bytes.now < 2 ^ 32 }
        requires rest { length self.rest.now ≤ length bytes.now }
        ensures { (name : List ℕ) (lines : List Line) → place ≡ 12 + length name → list_all is_line lines ≡ true
            → IsWholeFront place self.entry.found self.entry.rest.now lines
            → bytes.now ≡ lines_text lines ++ self.entry.rest.now
            → result ≡ bad_line (record { name = name; lines = lines }) self.entry.rest.now }
    {
        let size = bytes.len() - self.rest.len();
        if let Some(at) = self.found.clash(&bytes[..size]) {
            return Some(at);
        }
        if self.is_cut(size) {
            return Some(place + size);
        }
        if self.found.is_partial() {
            Some(0)
        } else {
            None
        }
    }
}
