ghost use Rattle.std.specs.Prelude.{◌≡◌, ◌++◌, ◌+◌, ◌<◌, ◌^◌, [], true, None, IfOk, IfErr, OnOk, length, Option, List, ℕ};
ghost use Rattle.std.specs.List.{flat_map};
ghost use Rattle.ato_first.specs.declared.first_form.Block.{Block};
ghost use Rattle.ato_first.specs.declared.first_form.Line.{Line};
ghost use Rattle.ato_first.specs.FirstForm.{is_ascii_name, head_text, lined, IsFile};
ghost use Rattle.ato_first.specs.FirstTokens.{line_names, file_names, AreTokens, IsRefused, syntax_fault};
ghost use Rattle.ato_base.specs.NameTable.{with_names, Extends};
ghost use Rattle.ato_first.specs.Statements.{AreRead, IsWholeFront};

use crate::fronts::Front;
use crate::lines::head_of;
use crate::pieces::{after, first_line};
use crate::writing::{push, push_head, push_last, push_statement};
use ato_base::{
    Fault, FaultKind, FileId, List, NameTable, NoMemory, Place, Refusal, Span, Token, TokenKind,
};
use std::alloc::Global;

/// The fault of a line that begins at a byte of the file and is not of the form.
fn bad_line(alloc: Global, file: FileId, at: usize) -> Refusal
    requires { at < 2 ^ 32 }
    ensures { result ≡ Refusal.Fault (syntax_fault file at) }
{
    let start = at as u32;
    Refusal::Fault(Fault {
        kind: FaultKind::Syntax,
        at: Place::Source(Span {
            file,
            start,
            end: start,
        }),
        other: None,
        path: List::new(alloc),
    })
}

/// Puts the tokens of the lines at the front of the bytes that follow one another in the form behind
/// the others. The first byte is at a place of the file.
fn push_lines<'a>(
    tokens: &mut List<Token>,
    names: &mut NameTable,
    file: FileId,
    place: usize,
    bytes: &'a [u8],
) -> Result<Front<'a>, NoMemory>
    requires { place + length bytes.now < 2 ^ 32 }
    ensures read { IfOk result (λ front. (lines : List Line)
        × AreRead file place bytes.now front.rest.now names.new tokens.old tokens.new lines
        × IsWholeFront place front.found front.rest.now lines
        × (names.new ≡ with_names names.old (flat_map line_names lines))) }
    ensures names { Extends names.old names.new }
{
    let mut front = Front::new(bytes);
    loop {
        let at = place + (bytes.len() - front.rest.len());
        match front.next(at) {
            None => return Ok(front),
            Some((statement, next)) => {
                push_statement(tokens, names, file, at, statement)?;
                front = next;
            }
        }
    }
}

/// The tokens of a file whose first line has a name. The bytes come after that line.
fn lex_block(
    alloc: Global,
    file: FileId,
    names: &mut NameTable,
    name: &str,
    bytes: &[u8],
) -> Result<List<Token>, Refusal>
    requires name { is_ascii_name name.now ≡ true }
    requires size { 12 + length name.now + length bytes.now < 2 ^ 32 }
    ensures tokens { IfOk result (λ tokens. (block : Option Block) × AreTokens (lined (head_text name.now) ++ bytes.now) file names.new tokens block) }
    ensures mentioned { OnOk result ((block : Option Block) → IsFile (lined (head_text name.now) ++ bytes.now) block → names.new ≡ with_names names.old (file_names block)) }
    ensures refused { IfErr result (IsRefused (lined (head_text name.now) ++ bytes.now) file) }
    ensures names { Extends names.old names.new }
{
    let place = 12 + name.len();
    let Some(_) = after(bytes, b"    ") else {
        return Err(bad_line(alloc, file, place));
    };
    let mut tokens = List::new(alloc);
    push_head(&mut tokens, names, file, name)?;
    let front = push_lines(&mut tokens, names, file, place, bytes)?;
    if let Some(at) = front.bad_line(place, bytes) {
        return Err(bad_line(alloc, file, at));
    }
    push_last(&mut tokens, file, place + bytes.len())?;
    Ok(tokens)
}

/// The tokens of a file without a byte.
fn lex_nothing(alloc: Global, file: FileId) -> Result<List<Token>, Refusal>
    ensures tokens { IfOk result (λ tokens. (names : List (List ℕ)) → AreTokens [] file names tokens None) }
    ensures refused { IfErr result (IsRefused [] file) }
{
    let mut tokens = List::new(alloc);
    push(&mut tokens, file, TokenKind::End, 0, 0)?;
    Ok(tokens)
}

/// The tokens of a source file, or the fault of its first line that is not of the form.
///
/// The names that it mentions are put into the table in their order, and no others; after a refusal
/// the table may hold more names than before.
pub fn lex(
    alloc: Global,
    text: &[u8],
    file: FileId,
    names: &mut NameTable,
) -> Result<List<Token>, Refusal>
    requires { length text.now < 2 ^ 32 }
    ensures tokens { IfOk result (λ tokens. (block : Option Block) × AreTokens text.now file names.new tokens block) }
    ensures mentioned { OnOk result ((block : Option Block) → IsFile text.now block → names.new ≡ with_names names.old (file_names block)) }
    ensures refused { IfErr result (IsRefused text.now file) }
    ensures names { Extends names.old names.new }
{
    if text.len() == 0 {
        return lex_nothing(alloc, file);
    }
    let Some((line, rest)) = first_line(text) else {
        return Err(bad_line(alloc, file, 0));
    };
    let Some(name) = head_of(line) else {
        return Err(bad_line(alloc, file, 0));
    };
    lex_block(alloc, file, names, name, rest)
}
