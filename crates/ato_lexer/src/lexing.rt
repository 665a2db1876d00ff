//! The tokens of a source file, or its first fault.
ghost use Rattle.std.specs.Prelude.{◌≡◌, ◌<◌, ◌+◌, ◌^◌, List, [], IfOk, IfErr, Some, length};
ghost use Rattle.std.specs.Str.{chars};
ghost use Rattle.ato_base.specs.NameTable.{Extends};
ghost use Rattle.ato_lexer.specs.Puts.{Puts, StopsAt};
ghost use Rattle.ato_lexer.specs.Reading.{past_char};
ghost use Rattle.ato_lexer.specs.Tokens.{AreTokens, IsRefused, items};

use crate::pieces::past_char;
use crate::putting::refusal;
use crate::scanning::scan;
use ato_base::{FaultKind, FileId, List, NameTable, Refusal, Span, Token};
use std::alloc::Global;
use std::str;

/// The tokens of a text that begins with U+FEFF, which is followed by `rest`.
fn lex_behind_mark(
    alloc: Global,
    names: &mut NameTable,
    file: FileId,
    text: &str,
    rest: &str,
) -> Result<List<Token>, Refusal>
    requires small { length text.now < 2 ^ 32 }
    requires mark { past_char 0xFEFF (chars text.now) ≡ Some (chars rest.now) }
    ensures puts { IfOk result (λ tokens. Puts file names.old names.new [] tokens (items text.now)) }
    ensures stops { IfErr result (StopsAt file (items text.now)) }
    ensures names { Extends names.old names.new }
{
    scan(alloc, names, file, rest, 3)
}

/// The tokens of a text. U+FEFF at its start is skipped.
fn lex_text(
    alloc: Global,
    names: &mut NameTable,
    file: FileId,
    text: &str,
) -> Result<List<Token>, Refusal>
    requires { length text.now < 2 ^ 32 }
    ensures puts { IfOk result (λ tokens. Puts file names.old names.new [] tokens (items text.now)) }
    ensures stops { IfErr result (StopsAt file (items text.now)) }
    ensures names { Extends names.old names.new }
{
    match past_char(text, '\u{FEFF}') {
        None => scan(alloc, names, file, text, 0),
        Some(rest) => lex_behind_mark(alloc, names, file, text, rest),
    }
}

/// The tokens of a file's bytes, in the order of their places, or its first fault: the first byte at
/// which no whole character begins, or else the first by its place of a character that begins no token,
/// a string that has no end, a number that is wide and a depth that is no open level. The rules stand
/// in docs/LANGUAGE.md. The names of the text are put into the table in the order of their first
/// mention, and the tokens have their numbers. The places are in bytes, in the file of this number.
///
/// # Errors
///
/// The first fault, or want of memory. The table may then have got some of the names.
#[tactic(auto, using(crate::proofs::TokenLaws::no_text, crate::proofs::FileLaws::tokens_put, crate::proofs::FileLaws::fault_put))]
pub fn lex(
    alloc: Global,
    text: &[u8],
    file: FileId,
    names: &mut NameTable,
) -> Result<List<Token>, Refusal>
    requires { length text.now < 2 ^ 32 }
    ensures tokens { IfOk result (AreTokens text.now file names.old names.new) }
    ensures refused { IfErr result (IsRefused text.now file) }
    ensures names { Extends names.old names.new }
{
    match str::from_utf8(text) {
        Ok(text) => lex_text(alloc, names, file, text),
        Err(error) => {
            let at = error.valid_up_to() as u32;
            let first_bad = Span {
                file,
                start: at,
                end: at + 1,
            };
            Err(refusal(alloc, FaultKind::BadText, first_bad))
        }
    }
}
