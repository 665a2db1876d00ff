//! Tokens, and the levels of lines, put one behind another.
ghost use Rattle.std.specs.Prelude.{◌≡◌, ◌∷◌, ◌++◌, ◌+◌, ◌<◌, ◌^◌, ◌≤◌, [], List, ℕ, OnOk, IfErr, reverse, nat_eq, true, false};
ghost use Rattle.std.specs.Char.{is_ascii_digit};
ghost use Rattle.std.specs.List.{repeat, list_all, list_any};
ghost use Rattle.std.specs.Str.{chars};
ghost use Rattle.ato_base.specs.NameTable.{Extends};
ghost use Rattle.ato_base.specs.declared.tokens.TokenKind.TheVariants as kinds;
ghost use Rattle.ato_lexer.specs.Layout.{last_items, top, left, kept, opened, is_open, steps, token_item};
ghost use Rattle.ato_lexer.specs.Lines.{Placed, is_token};
ghost use Rattle.ato_lexer.specs.Pieces.{is_bad};
ghost use Rattle.ato_lexer.specs.Puts.{Puts, StopsAt, placed_as, placed_of, HasQuotes};
ghost use Rattle.ato_lexer.specs.Shapes.{kind_of_shape};
ghost use Rattle.ato_lexer.specs.Tokens.{token_at, fault_at, small_value};

use crate::numbers::{is_whole, is_wide, small_value};
use crate::pieces::{Piece, Shape};
use ato_base::{
    Fault, FaultKind, FileId, List, NameTable, NoMemory, Place, Refusal, Span, Token, TokenKind,
};
use std::alloc::Global;

/// Puts a token behind the others.
pub(crate) fn push(tokens: &mut List<Token>, kind: TokenKind, at: Span) -> Result<(), NoMemory>
    ensures { OnOk result (tokens.new ≡ tokens.old ++ token_at at.file at.start at.end kind ∷ []) }
{
    tokens.push(Token { kind, at })
}

/// Puts a token that stands in front of a byte and has none.
pub(crate) fn push_empty(
    tokens: &mut List<Token>,
    kind: TokenKind,
    file: FileId,
    at: u32,
) -> Result<(), NoMemory>
    ensures { OnOk result (tokens.new ≡ tokens.old ++ token_at file at at kind ∷ []) }
{
    push(
        tokens,
        kind,
        Span {
            file,
            start: at,
            end: at,
        },
    )
}

/// The refusal for a fault at these bytes.
pub(crate) fn refusal(alloc: Global, kind: FaultKind, at: Span) -> Refusal
    ensures { result ≡ Refusal.Fault (fault_at at.file kind at.start at.end) }
{
    Refusal::Fault(Fault {
        kind,
        at: Place::Source(at),
        other: None,
        path: List::new(alloc),
    })
}

/// The depth of the deepest open level. The levels stand in the order in which they were opened.
fn top_of(levels: &[usize]) -> usize
    ensures { result ≡ top (reverse levels.now) }
{
    match levels.last() {
        None => 0,
        Some(level) => *level,
    }
}

/// Whether one of some levels is this deep.
fn is_among(depth: usize, levels: &[usize]) -> bool
    ensures { result ≡ list_any (nat_eq depth) levels.now }
{
    levels.iter().any(|level| depth == *level)
}

/// Whether a depth is an open level.
fn is_open(depth: usize, levels: &[usize]) -> bool
    ensures { result ≡ is_open depth (reverse levels.now) }
{
    depth == 0 || is_among(depth, levels)
}

/// Leaves the levels that are deeper than a line, with a DEDENT at a byte for each.
pub(crate) fn leave(
    levels: &mut Vec<usize>,
    tokens: &mut List<Token>,
    file: FileId,
    depth: usize,
    at: u32,
) -> Result<(), NoMemory>
    ensures levels { OnOk result (reverse levels.new.items ≡ kept depth (reverse levels.old.items)) }
    ensures tokens { OnOk result (tokens.new ≡ tokens.old ++ repeat (left depth (reverse levels.old.items)) (token_at file at at kinds.Dedent ∷ [])) }
{
    'levels: loop {
        let level = top_of(levels.as_slice());
        if level <= depth {
            return Ok(());
        }
        levels.pop();
        push_empty(tokens, TokenKind::Dedent, file, at)?;
    }
}

/// Opens or leaves levels before a line of this depth, whose first token stands at these bytes.
pub(crate) fn begin_line(
    alloc: Global,
    levels: &mut Vec<usize>,
    tokens: &mut List<Token>,
    depth: usize,
    at: Span,
) -> Result<(), Refusal>
    ensures levels { OnOk result (reverse levels.new.items ≡ opened depth (reverse levels.old.items)) }
    ensures puts { OnOk result ((first : Placed) (names : List (List ℕ)) → first.start ≡ at.start → first.end ≡ at.end
        → Puts at.file names names tokens.old tokens.new (steps depth first (reverse levels.old.items))) }
    ensures stops { IfErr result (λ refusal. (first : Placed) → first.start ≡ at.start → first.end ≡ at.end → StopsAt at.file (steps depth first (reverse levels.old.items)) refusal) }
{
    if top_of(levels.as_slice()) < depth {
        levels.push(depth).map_err(NoMemory::from)?;
        push_empty(tokens, TokenKind::Indent, at.file, at.start)?;
        return Ok(());
    }
    if !is_open(depth, levels.as_slice()) {
        return Err(refusal(alloc, FaultKind::BadIndent, at));
    }
    leave(levels, tokens, at.file, depth, at.start)?;
    Ok(())
}

/// What the token of a number is, which stands at these bytes.
fn number_kind(text: &str, at: Span) -> TokenKind
    ensures { result ≡ kinds.Number (list_all is_ascii_digit (chars text.now)) (small_value (chars text.now)) at }
{
    TokenKind::Number {
        whole: is_whole(text),
        small: small_value(text),
        at,
    }
}

/// Puts a name into the table, and its token behind the others.
#[tactic(auto, using(crate::proofs::PutLaws::table_kept, crate::proofs::PutLaws::table_grows))]
fn push_name(
    tokens: &mut List<Token>,
    names: &mut NameTable,
    text: &str,
    at: Span,
) -> Result<(), NoMemory>
    ensures puts { OnOk result (Puts at.file names.old names.new tokens.old tokens.new (token_item (placed_as Shape.Name text.now at.start at.end) ∷ [])) }
    ensures names { Extends names.old names.new }
{
    let name = names.intern(text)?;
    push(tokens, TokenKind::Name(name), at)?;
    Ok(())
}

/// Puts the token of a number behind the others, or refuses one that is wide.
fn push_number(alloc: Global, tokens: &mut List<Token>, text: &str, at: Span) -> Result<(), Refusal>
    ensures puts { OnOk result ((names : List (List ℕ)) → Puts at.file names names tokens.old tokens.new (token_item (placed_as Shape.Number text.now at.start at.end) ∷ [])) }
    ensures stops { IfErr result (StopsAt at.file (token_item (placed_as Shape.Number text.now at.start at.end) ∷ [])) }
{
    if is_wide(text) {
        return Err(refusal(alloc, FaultKind::WideNumber, at));
    }
    push(tokens, number_kind(text, at), at)?;
    Ok(())
}

/// Puts the token that a piece is, with its name where it is one.
#[tactic(auto, using(crate::proofs::PutLaws::table_same))]
pub(crate) fn push_piece(
    alloc: Global,
    tokens: &mut List<Token>,
    names: &mut NameTable,
    piece: Piece,
) -> Result<(), Refusal>
    requires token { is_token (kind_of_shape piece.shape) ≡ true }
    requires good { is_bad (kind_of_shape piece.shape) ≡ false }
    requires quotes { HasQuotes piece.shape piece.at.start piece.at.end }
    ensures puts { OnOk result (Puts piece.entry.at.file names.old names.new tokens.old tokens.new (token_item (placed_of piece.entry) ∷ [])) }
    ensures stops { IfErr result (StopsAt piece.entry.at.file (token_item (placed_of piece.entry) ∷ [])) }
    ensures names { Extends names.old names.new }
{
    match piece.shape {
        Shape::Name => {
            push_name(tokens, names, piece.text, piece.at)?;
            Ok(())
        }
        Shape::Number => {
            push_number(alloc, tokens, piece.text, piece.at)?;
            Ok(())
        }
        Shape::Keyword(keyword) => {
            push(tokens, TokenKind::Keyword(keyword), piece.at)?;
            Ok(())
        }
        Shape::Str(quotes) => {
            let inside = Span {
                file: piece.at.file,
                start: piece.at.start + quotes,
                end: piece.at.end - quotes,
            };
            push(tokens, TokenKind::Str(inside), piece.at)?;
            Ok(())
        }
        Shape::Mark(mark) => {
            push(tokens, TokenKind::Mark(mark), piece.at)?;
            Ok(())
        }
        _ => Ok(()),
    }
}

/// Puts so many DEDENTs at a byte.
fn push_dedents(
    tokens: &mut List<Token>,
    file: FileId,
    count: usize,
    at: u32,
) -> Result<(), NoMemory>
    ensures { OnOk result (tokens.new ≡ tokens.old ++ repeat count (token_at file at at kinds.Dedent ∷ [])) }
{
    'dedents: for _ in 0..count {
        push_empty(tokens, TokenKind::Dedent, file, at)?;
    }
    Ok(())
}

/// Puts the end of a file of so many bytes: a DEDENT for each open level, and END.
pub(crate) fn push_end(
    levels: &[usize],
    tokens: &mut List<Token>,
    file: FileId,
    size: u32,
) -> Result<(), NoMemory>
    ensures { OnOk result ((names : List (List ℕ)) → Puts file names names tokens.old tokens.new (last_items (reverse levels.now) size [])) }
{
    push_dedents(tokens, file, levels.len(), size)?;
    push_empty(tokens, TokenKind::End, file, size)?;
    Ok(())
}
