ghost use Rattle.std.specs.Prelude.{◌≡◌, ◌++◌, ◌+◌, ◌<◌, ◌^◌, [], ◌∷◌, length, OnOk, IfOk, All, false, true};
ghost use Rattle.std.specs.List.{list_all};
ghost use Rattle.ato_first.specs.FirstForm.{is_digit, point_text, end_text, line_text, is_ascii_name, is_short_number};
ghost use Rattle.ato_first.specs.FirstTokens.{token, small_value, name_token, number_token, point_tokens, end_tokens, words_tokens, line_tokens, head_tokens, last_tokens, point_names, end_names, line_names};
ghost use Rattle.ato_base.specs.NameTable.{with_names, IsHeld, Extends};
ghost use Rattle.ato_first.specs.declared.first_form.Line.{Line};
ghost use Rattle.ato_first.specs.declared.first_form.Point.{Point};
ghost use Rattle.ato_first.specs.Statements.{read_point, read_end, read_line, IsPointText, IsEndText, IsStatement};

use crate::part_writing::{push_assertion, push_attribute, push_kind};
use crate::statements::{EndText, PointText, Statement};
use ato_base::{FileId, Keyword, List, Mark, NameTable, NoMemory, Span, Token, TokenKind};

/// The bytes of a file from one up to another.
pub(crate) fn span(file: FileId, start: usize, end: usize) -> Span
    requires start { start < 2 ^ 32 }
    requires end { end < 2 ^ 32 }
    ensures { result ≡ record { file = file; start = start; end = end } }
{
    Span {
        file,
        start: start as u32,
        end: end as u32,
    }
}

/// Puts a token from one byte of the file up to another behind the others.
pub(crate) fn push(
    tokens: &mut List<Token>,
    file: FileId,
    kind: TokenKind,
    start: usize,
    end: usize,
) -> Result<(), NoMemory>
    requires start { start < 2 ^ 32 }
    requires end { end < 2 ^ 32 }
    ensures { OnOk result (tokens.new ≡ tokens.old ++ token file kind start end ∷ []) }
{
    tokens.push(Token {
        kind,
        at: span(file, start, end),
    })
}

/// Puts the token of a name behind the others, and gives the byte after the name.
pub(crate) fn push_name(
    tokens: &mut List<Token>,
    names: &mut NameTable,
    file: FileId,
    at: usize,
    name: &str,
) -> Result<usize, NoMemory>
    requires { at + length name.now < 2 ^ 32 }
    ensures stop { IfOk result (λ stop. stop ≡ at + length name.now) }
    ensures pushed { OnOk result (tokens.new ≡ tokens.old ++ name_token names.new file at name.now ∷ []) }
    ensures held { OnOk result (IsHeld names.new name.now) }
    ensures mentioned { OnOk result (names.new ≡ with_names names.old (name.now ∷ [])) }
    ensures names { Extends names.old names.new }
{
    let number = names.intern(name)?;
    let stop = at + name.len();
    push(tokens, file, TokenKind::Name(number), at, stop)?;
    Ok(stop)
}

/// The value of digits, where it is at most 65,535.
fn small_value(digits: &[u8]) -> Option<u16>
    requires { list_all is_digit digits.now ≡ true }
    ensures { result ≡ small_value digits.now }
{
    let mut value: u32 = 0;
    for digit in digits {
        value = value * 10 + (*digit - b'0') as u32;
        if value > 65_535 {
            return None;
        }
    }
    Some(value as u16)
}

/// Puts the token of a number behind the others, and gives the byte after the number.
pub(crate) fn push_number(
    tokens: &mut List<Token>,
    file: FileId,
    at: usize,
    digits: &[u8],
) -> Result<usize, NoMemory>
    requires size { at + length digits.now < 2 ^ 32 }
    requires digits { is_short_number digits.now ≡ true }
    ensures stop { IfOk result (λ stop. stop ≡ at + length digits.now) }
    ensures pushed { OnOk result (tokens.new ≡ tokens.old ++ number_token file at digits.now ∷ []) }
{
    let stop = at + digits.len();
    let kind = TokenKind::Number {
        whole: true,
        small: small_value(digits),
        at: span(file, at, stop),
    };
    push(tokens, file, kind, at, stop)?;
    Ok(stop)
}

/// Puts a keyword from one byte of the file up to another behind the others.
pub(crate) fn push_keyword(
    tokens: &mut List<Token>,
    file: FileId,
    keyword: Keyword,
    start: usize,
    end: usize,
) -> Result<(), NoMemory>
    requires start { start < 2 ^ 32 }
    requires end { end < 2 ^ 32 }
    ensures { OnOk result (tokens.new ≡ tokens.old ++ token file (TokenKind.Keyword keyword) start end ∷ []) }
{
    push(tokens, file, TokenKind::Keyword(keyword), start, end)
}

/// Puts a mark from one byte of the file up to another behind the others.
pub(crate) fn push_mark(
    tokens: &mut List<Token>,
    file: FileId,
    mark: Mark,
    start: usize,
    end: usize,
) -> Result<(), NoMemory>
    requires start { start < 2 ^ 32 }
    requires end { end < 2 ^ 32 }
    ensures { OnOk result (tokens.new ≡ tokens.old ++ token file (TokenKind.Mark mark) start end ∷ []) }
{
    push(tokens, file, TokenKind::Mark(mark), start, end)
}

fn push_newline(tokens: &mut List<Token>, file: FileId, at: usize) -> Result<(), NoMemory>
    requires { at < 2 ^ 32 }
    ensures { OnOk result (tokens.new ≡ tokens.old ++ token file TokenKind.Newline at at ∷ []) }
{
    push(tokens, file, TokenKind::Newline, at, at)
}

fn push_signal(
    tokens: &mut List<Token>,
    names: &mut NameTable,
    file: FileId,
    at: usize,
    name: &str,
) -> Result<usize, NoMemory>
    requires { at + length (point_text (Point.Signal name.now)) < 2 ^ 32 }
    ensures stop { IfOk result (λ stop. stop ≡ at + length (point_text (Point.Signal name.now))) }
    ensures pushed { OnOk result (tokens.new ≡ tokens.old ++ point_tokens names.new file at (Point.Signal name.now)) }
    ensures held { OnOk result (IsHeld names.new name.now) }
    ensures mentioned { OnOk result (names.new ≡ with_names names.old (name.now ∷ [])) }
    ensures names { Extends names.old names.new }
{
    push_keyword(tokens, file, Keyword::Signal, at, at + 6)?;
    push_name(tokens, names, file, at + 7, name)
}

fn push_named_pin(
    tokens: &mut List<Token>,
    names: &mut NameTable,
    file: FileId,
    at: usize,
    label: &str,
) -> Result<usize, NoMemory>
    requires size { at + length (point_text (Point.Pin label.now)) < 2 ^ 32 }
    requires label { is_ascii_name label.now ≡ true }
    ensures stop { IfOk result (λ stop. stop ≡ at + length (point_text (Point.Pin label.now))) }
    ensures pushed { OnOk result (tokens.new ≡ tokens.old ++ point_tokens names.new file at (Point.Pin label.now)) }
    ensures held { OnOk result (IsHeld names.new label.now) }
    ensures mentioned { OnOk result (names.new ≡ with_names names.old (label.now ∷ [])) }
    ensures names { Extends names.old names.new }
{
    push_keyword(tokens, file, Keyword::Pin, at, at + 3)?;
    push_name(tokens, names, file, at + 4, label)
}

fn push_numbered_pin(
    tokens: &mut List<Token>,
    file: FileId,
    at: usize,
    digits: &[u8],
) -> Result<usize, NoMemory>
    requires size { at + length (point_text (Point.Pin digits.now)) < 2 ^ 32 }
    requires no_name { is_ascii_name digits.now ≡ false }
    requires digits { is_short_number digits.now ≡ true }
    ensures stop { IfOk result (λ stop. stop ≡ at + length (point_text (Point.Pin digits.now))) }
    ensures pushed { OnOk result (tokens.new ≡ tokens.old ++ point_tokens [] file at (Point.Pin digits.now)) }
{
    push_keyword(tokens, file, Keyword::Pin, at, at + 3)?;
    push_number(tokens, file, at + 4, digits)
}

/// Puts the tokens of a point that is declared at a byte of the file behind the others, and gives
/// the byte after the point.
fn push_point(
    tokens: &mut List<Token>,
    names: &mut NameTable,
    file: FileId,
    at: usize,
    point: PointText,
) -> Result<usize, NoMemory>
    requires size { at + length (point_text (read_point point)) < 2 ^ 32 }
    requires point { IsPointText point }
    ensures stop { IfOk result (λ stop. stop ≡ at + length (point_text (read_point point.entry))) }
    ensures pushed { OnOk result (tokens.new ≡ tokens.old ++ point_tokens names.new file at (read_point point.entry)) }
    ensures held { OnOk result (All (IsHeld names.new) (point_names (read_point point.entry))) }
    ensures mentioned { OnOk result (names.new ≡ with_names names.old (point_names (read_point point.entry))) }
    ensures names { Extends names.old names.new }
{
    match point {
        PointText::Signal(name) => push_signal(tokens, names, file, at, name),
        PointText::NamedPin(label) => push_named_pin(tokens, names, file, at, label),
        PointText::NumberedPin(digits) => push_numbered_pin(tokens, file, at, digits),
    }
}

/// Puts the tokens of an end of a join behind the others, and gives the byte after the end.
fn push_end(
    tokens: &mut List<Token>,
    names: &mut NameTable,
    file: FileId,
    at: usize,
    end: EndText,
) -> Result<usize, NoMemory>
    requires size { at + length (end_text (read_end end)) < 2 ^ 32 }
    requires end { IsEndText end }
    ensures stop { IfOk result (λ stop. stop ≡ at + length (end_text (read_end end.entry))) }
    ensures pushed { OnOk result (tokens.new ≡ tokens.old ++ end_tokens names.new file at (read_end end.entry)) }
    ensures held { OnOk result (All (IsHeld names.new) (end_names (read_end end.entry))) }
    ensures mentioned { OnOk result (names.new ≡ with_names names.old (end_names (read_end end.entry))) }
    ensures names { Extends names.old names.new }
{
    match end {
        EndText::Name(name) => push_name(tokens, names, file, at, name),
        EndText::Declared(point) => push_point(tokens, names, file, at, point),
    }
}

fn push_pass(tokens: &mut List<Token>, file: FileId, at: usize) -> Result<usize, NoMemory>
    requires { at + 8 < 2 ^ 32 }
    ensures stop { IfOk result (λ stop. stop ≡ at + 8) }
    ensures pushed { OnOk result (tokens.new ≡ tokens.old ++ words_tokens [] file at Line.Pass) }
{
    push_keyword(tokens, file, Keyword::Pass, at + 4, at + 8)?;
    Ok(at + 8)
}

fn push_join(
    tokens: &mut List<Token>,
    names: &mut NameTable,
    file: FileId,
    at: usize,
    left: EndText,
    right: EndText,
) -> Result<usize, NoMemory>
    requires size { at + length (line_text (Line.Join (read_end left) (read_end right))) < 2 ^ 32 }
    requires left { IsEndText left }
    requires right { IsEndText right }
    ensures stop { IfOk result (λ stop. stop ≡ at + length (line_text (Line.Join (read_end left.entry) (read_end right.entry)))) }
    ensures pushed { OnOk result (tokens.new ≡ tokens.old ++ words_tokens names.new file at (Line.Join (read_end left.entry) (read_end right.entry))) }
    ensures held { OnOk result (All (IsHeld names.new) (line_names (Line.Join (read_end left.entry) (read_end right.entry)))) }
    ensures mentioned { OnOk result (names.new ≡ with_names names.old (line_names (Line.Join (read_end left.entry) (read_end right.entry)))) }
    ensures names { Extends names.old names.new }
{
    let stop = push_end(tokens, names, file, at + 4, left)?;
    push_mark(tokens, file, Mark::Tilde, stop + 1, stop + 2)?;
    push_end(tokens, names, file, stop + 3, right)
}

/// Puts the tokens of a line without its line end behind the others, and gives the byte of its line
/// end.
fn push_words(
    tokens: &mut List<Token>,
    names: &mut NameTable,
    file: FileId,
    at: usize,
    statement: Statement,
) -> Result<usize, NoMemory>
    requires size { at + length (line_text (read_line statement)) < 2 ^ 32 }
    requires statement { IsStatement statement }
    ensures stop { IfOk result (λ stop. stop ≡ at + length (line_text (read_line statement.entry))) }
    ensures pushed { OnOk result (tokens.new ≡ tokens.old ++ words_tokens names.new file at (read_line statement.entry)) }
    ensures held { OnOk result (All (IsHeld names.new) (line_names (read_line statement.entry))) }
    ensures mentioned { OnOk result (names.new ≡ with_names names.old (line_names (read_line statement.entry))) }
    ensures names { Extends names.old names.new }
{
    match statement {
        Statement::Pass => push_pass(tokens, file, at),
        Statement::Declaration(point) => push_point(tokens, names, file, at + 4, point),
        Statement::Join(left, right) => push_join(tokens, names, file, at, left, right),
        Statement::Kind(text) => push_kind(tokens, names, file, at, text),
        Statement::Attribute(name) => push_attribute(tokens, names, file, at, name),
        Statement::Assertion(assertion) => push_assertion(tokens, names, file, at, assertion),
    }
}

/// Puts the tokens of a line that begins at a byte of the file behind the others.
pub(crate) fn push_statement(
    tokens: &mut List<Token>,
    names: &mut NameTable,
    file: FileId,
    at: usize,
    statement: Statement,
) -> Result<(), NoMemory>
    requires size { at + length (line_text (read_line statement)) < 2 ^ 32 }
    requires statement { IsStatement statement }
    ensures pushed { OnOk result (tokens.new ≡ tokens.old ++ line_tokens names.new file at (read_line statement.entry)) }
    ensures held { OnOk result (All (IsHeld names.new) (line_names (read_line statement.entry))) }
    ensures mentioned { OnOk result (names.new ≡ with_names names.old (line_names (read_line statement.entry))) }
    ensures names { Extends names.old names.new }
{
    let stop = push_words(tokens, names, file, at, statement)?;
    push_newline(tokens, file, stop)
}

/// Puts the tokens of the first line behind the others, with the indentation of the next.
pub(crate) fn push_head(
    tokens: &mut List<Token>,
    names: &mut NameTable,
    file: FileId,
    name: &str,
) -> Result<(), NoMemory>
    requires { 16 + length name.now < 2 ^ 32 }
    ensures pushed { OnOk result (tokens.new ≡ tokens.old ++ head_tokens names.new file name.now) }
    ensures held { OnOk result (IsHeld names.new name.now) }
    ensures mentioned { OnOk result (names.new ≡ with_names names.old (name.now ∷ [])) }
    ensures names { Extends names.old names.new }
{
    let size = name.len();
    push_keyword(tokens, file, Keyword::Component, 0, 9)?;
    push_name(tokens, names, file, 10, name)?;
    push_mark(tokens, file, Mark::Colon, 10 + size, 11 + size)?;
    push_newline(tokens, file, 11 + size)?;
    push(tokens, file, TokenKind::Indent, 16 + size, 16 + size)
}

/// Puts the tokens that end a file of so many bytes behind the others.
pub(crate) fn push_last(tokens: &mut List<Token>, file: FileId, size: usize) -> Result<(), NoMemory>
    requires { size < 2 ^ 32 }
    ensures { OnOk result (tokens.new ≡ tokens.old ++ last_tokens file size) }
{
    push(tokens, file, TokenKind::Dedent, size, size)?;
    push(tokens, file, TokenKind::End, size, size)
}
