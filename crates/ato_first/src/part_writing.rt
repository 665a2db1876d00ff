ghost use Rattle.std.specs.Prelude.{◌≡◌, ◌++◌, ◌+◌, ◌<◌, ◌^◌, [], ◌∷◌, length, OnOk, IfOk, All, true};
ghost use Rattle.ato_first.specs.FirstForm.{line_text, is_short_number};
ghost use Rattle.ato_first.specs.FirstTokens.{quoted_token, range_tokens, words_tokens, line_names};
ghost use Rattle.ato_base.specs.NameTable.{with_names, IsHeld, Extends};
ghost use Rattle.ato_first.specs.Statements.{read_assertion, IsAssertionText};
ghost use Rattle.ato_first.specs.declared.first_form.Line.{Line};

use crate::statements::AssertionText;
use crate::writing::{push, push_keyword, push_mark, push_name, push_number, span};
use ato_base::{FileId, Keyword, List, Mark, NameTable, NoMemory, Token, TokenKind};

/// Puts the token of a text in quotes behind the others, and gives the byte after the second quote.
/// The first stands at a byte of the file.
fn push_quoted(
    tokens: &mut List<Token>,
    file: FileId,
    at: usize,
    text: &[u8],
) -> Result<usize, NoMemory>
    requires { at + 2 + length text.now < 2 ^ 32 }
    ensures stop { IfOk result (λ stop. stop ≡ at + 2 + length text.now) }
    ensures pushed { OnOk result (tokens.new ≡ tokens.old ++ quoted_token file at text.now ∷ []) }
{
    let inside = span(file, at + 1, at + 1 + text.len());
    let stop = at + 2 + text.len();
    push(tokens, file, TokenKind::Str(inside), at, stop)?;
    Ok(stop)
}

/// Puts the tokens of the line of a kind behind the others, and gives the byte of its line end.
pub(crate) fn push_kind(
    tokens: &mut List<Token>,
    names: &mut NameTable,
    file: FileId,
    at: usize,
    text: &[u8],
) -> Result<usize, NoMemory>
    requires { at + length (line_text (Line.Kind text.now)) < 2 ^ 32 }
    ensures stop { IfOk result (λ stop. stop ≡ at + length (line_text (Line.Kind text.now))) }
    ensures pushed { OnOk result (tokens.new ≡ tokens.old ++ words_tokens names.new file at (Line.Kind text.now)) }
    ensures held { OnOk result (All (IsHeld names.new) (line_names (Line.Kind text.now))) }
    ensures mentioned { OnOk result (names.new ≡ with_names names.old (line_names (Line.Kind text.now))) }
    ensures names { Extends names.old names.new }
{
    push_name(tokens, names, file, at + 4, "kind")?;
    push_mark(tokens, file, Mark::Equal, at + 9, at + 10)?;
    push_quoted(tokens, file, at + 11, text)
}

/// Puts the tokens of the declaration of an attribute behind the others, and gives the byte of its
/// line end.
pub(crate) fn push_attribute(
    tokens: &mut List<Token>,
    names: &mut NameTable,
    file: FileId,
    at: usize,
    name: &str,
) -> Result<usize, NoMemory>
    requires { at + length (line_text (Line.Attribute name.now)) < 2 ^ 32 }
    ensures stop { IfOk result (λ stop. stop ≡ at + length (line_text (Line.Attribute name.now))) }
    ensures pushed { OnOk result (tokens.new ≡ tokens.old ++ words_tokens names.new file at (Line.Attribute name.now)) }
    ensures held { OnOk result (All (IsHeld names.new) (line_names (Line.Attribute name.now))) }
    ensures mentioned { OnOk result (names.new ≡ with_names names.old (line_names (Line.Attribute name.now))) }
    ensures names { Extends names.old names.new }
{
    let stop = push_name(tokens, names, file, at + 4, name)?;
    push_mark(tokens, file, Mark::Colon, stop, stop + 1)?;
    push_name(tokens, names, file, stop + 2, "dimensionless")
}

/// Puts the tokens of a range behind the others, and gives the byte after it.
fn push_range(
    tokens: &mut List<Token>,
    file: FileId,
    at: usize,
    low: &[u8],
    high: &[u8],
) -> Result<usize, NoMemory>
    requires size { at + 4 + length low.now + length high.now < 2 ^ 32 }
    requires low { is_short_number low.now ≡ true }
    requires high { is_short_number high.now ≡ true }
    ensures stop { IfOk result (λ stop. stop ≡ at + 4 + length low.now + length high.now) }
    ensures pushed { OnOk result (tokens.new ≡ tokens.old ++ range_tokens file at low.now high.now) }
{
    let stop = push_number(tokens, file, at, low)?;
    push_keyword(tokens, file, Keyword::To, stop + 1, stop + 3)?;
    push_number(tokens, file, stop + 4, high)
}

/// Puts the tokens of an assertion behind the others, and gives the byte of its line end.
pub(crate) fn push_assertion(
    tokens: &mut List<Token>,
    names: &mut NameTable,
    file: FileId,
    at: usize,
    assertion: AssertionText,
) -> Result<usize, NoMemory>
    requires size { at + length (line_text (Line.Assertion (read_assertion assertion))) < 2 ^ 32 }
    requires assertion { IsAssertionText assertion }
    ensures stop { IfOk result (λ stop. stop ≡ at + length (line_text (Line.Assertion (read_assertion assertion.entry)))) }
    ensures pushed { OnOk result (tokens.new ≡ tokens.old ++ words_tokens names.new file at (Line.Assertion (read_assertion assertion.entry))) }
    ensures held { OnOk result (All (IsHeld names.new) (line_names (Line.Assertion (read_assertion assertion.entry)))) }
    ensures mentioned { OnOk result (names.new ≡ with_names names.old (line_names (Line.Assertion (read_assertion assertion.entry)))) }
    ensures names { Extends names.old names.new }
{
    push_keyword(tokens, file, Keyword::Assert, at + 4, at + 10)?;
    let stop = push_name(tokens, names, file, at + 11, assertion.name)?;
    push_keyword(tokens, file, Keyword::Within, stop + 1, stop + 7)?;
    push_range(tokens, file, stop + 8, assertion.low, assertion.high)
}
