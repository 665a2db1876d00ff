//! What one piece of a text puts, and where the scan stands behind it.
ghost use Rattle.std.specs.Prelude.{◌≡◌, ◌∷◌, ◌+◌, ◌*◌, ◌^◌, ◌<◌, ◌≤◌, ◌==◌, ◌&&◌, ◌++◌, [], List, ℕ, false, IfOk, OnOk, IfErr, MatchOption, drop, reverse, length};
ghost use Rattle.std.specs.List.{fold};
ghost use Rattle.std.specs.Str.{chars};
ghost use Rattle.ato_base.specs.NameTable.{Extends};
ghost use Rattle.ato_lexer.specs.Layout.{last_items, steps, opened, token_item};
ghost use Rattle.ato_lexer.specs.Lines.{Placed, column_after, is_line_end, is_blank, open_after};
ghost use Rattle.ato_lexer.specs.Pieces.{front_of, is_bad};
ghost use Rattle.ato_lexer.specs.Puts.{Puts, StopsAt, placed_of, HasQuotes, IsFirst};
ghost use Rattle.ato_lexer.specs.Scans.{scanned};
ghost use Rattle.ato_lexer.specs.Shapes.{kind_of_shape};
ghost use Rattle.ato_lexer.specs.Tokens.{bad_kind};
ghost use Rattle.ato_lexer.specs.Walks.{closing, put, put_within, standing_after, levels_after, HasRoom};

use crate::pieces::{Piece, Shape, front};
use crate::putting::{begin_line, push_empty, push_end, push_piece, refusal};
use ato_base::{
    FaultKind, FileId, List, Mark, NameTable, NoMemory, Refusal, Span, Token, TokenKind, first_char,
};
use ato_units::before;
use std::alloc::Global;

/// Where a scan over the pieces of a text stands.
#[derive(Clone, Copy, Debug)]
pub(crate) enum Standing {
    /// Between two lines, behind blanks up to a column.
    Between(usize),
    /// In a line, with so many open brackets, whose last token ends at this byte.
    Within { brackets: usize, last: u32 },
}

/// Whether a piece ends a line where no bracket is open.
fn is_line_end(shape: Shape) -> bool
    ensures { result ≡ is_line_end (kind_of_shape shape) }
{
    matches!(&shape, Shape::LineEnd)
}

/// Whether a piece ends a line in which so many brackets are open.
fn ends_line(shape: Shape, brackets: usize) -> bool
    ensures { result ≡ (is_line_end (kind_of_shape shape) && (brackets == 0)) }
{
    is_line_end(shape) && brackets == 0
}

/// Whether a piece is no token.
fn is_blank(shape: Shape) -> bool
    ensures { result ≡ is_blank (kind_of_shape shape) }
{
    match shape {
        Shape::Blank | Shape::Comment | Shape::LineEnd => true,
        _ => false,
    }
}

/// How many brackets are open behind a piece.
fn open_after(shape: Shape, brackets: usize) -> usize
    requires { brackets + 1 < 2 ^ 64 }
    ensures value { result ≡ open_after (kind_of_shape shape) brackets }
    ensures bound { result ≤ brackets + 1 }
{
    match shape {
        Shape::Mark(mark) => match mark {
            Mark::LeftParenthesis | Mark::LeftBracket => brackets + 1,
            Mark::RightParenthesis | Mark::RightBracket => brackets.saturating_sub(1),
            _ => brackets,
        },
        _ => brackets,
    }
}

/// The column behind a character: a tab goes to the next multiple of 8, and U+FEFF takes none.
fn column_after(column: usize, next: char) -> usize
    requires { column + 8 < 2 ^ 64 }
    ensures value { result ≡ column_after column next }
    ensures bound { result ≤ column + 8 }
{
    if next == '\t' {
        (column / 8 + 1) * 8
    } else if next == '\u{FEFF}' {
        column
    } else {
        column + 1
    }
}

/// The column behind a text that begins at a column.
fn column_behind(column: usize, text: &str) -> usize
    requires { column + 8 * length text.now < 2 ^ 64 }
    ensures value { result ≡ fold column_after column (chars text.now) }
    ensures bound { result ≤ column + 8 * length text.now }
{
    let mut behind = column;
    let mut rest = text;
    'chars: while let Some((next, after)) = first_char(rest) {
        behind = column_after(behind, next);
        rest = after;
    }
    behind
}

/// Where a scan between two lines stands behind a piece.
fn behind_between(column: usize, piece: Piece) -> Standing
    requires room { column ≤ 8 * piece.at.start }
    requires bytes { piece.at.start + length piece.text.now ≡ piece.at.end }
    requires some { 0 < length piece.text.now }
    ensures value { result ≡ standing_after (Standing.Between column) (placed_of piece.entry) }
    ensures room { HasRoom result piece.entry.at.end }
{
    if is_line_end(piece.shape) {
        Standing::Between(0)
    } else if is_blank(piece.shape) {
        Standing::Between(column_behind(column, piece.text))
    } else {
        Standing::Within {
            brackets: open_after(piece.shape, 0),
            last: piece.at.end,
        }
    }
}

/// Where a scan in a line stands behind a piece.
fn behind_within(brackets: usize, last: u32, piece: Piece) -> Standing
    requires room { brackets ≤ piece.at.start }
    requires bytes { piece.at.start + length piece.text.now ≡ piece.at.end }
    requires some { 0 < length piece.text.now }
    ensures value { result ≡ standing_after (Standing.Within brackets last) (placed_of piece.entry) }
    ensures room { HasRoom result piece.entry.at.end }
{
    if ends_line(piece.shape, brackets) {
        Standing::Between(0)
    } else if is_blank(piece.shape) {
        Standing::Within { brackets, last }
    } else {
        Standing::Within {
            brackets: open_after(piece.shape, brackets),
            last: piece.at.end,
        }
    }
}

/// Where a scan stands behind a piece.
fn standing_after(standing: Standing, piece: Piece) -> Standing
    requires room { HasRoom standing piece.at.start }
    requires bytes { piece.at.start + length piece.text.now ≡ piece.at.end }
    requires some { 0 < length piece.text.now }
    ensures value { result ≡ standing_after standing (placed_of piece.entry) }
    ensures room { HasRoom result piece.entry.at.end }
{
    match standing {
        Standing::Between(column) => behind_between(column, piece),
        Standing::Within { brackets, last } => { behind_within(brackets, last, piece) }
    }
}

/// Puts the steps to a line before its first token, and the token.
#[tactic(auto, using(crate::proofs::PutLaws::table_same))]
fn put_first(
    alloc: Global,
    levels: &mut Vec<usize>,
    tokens: &mut List<Token>,
    names: &mut NameTable,
    column: usize,
    piece: Piece,
) -> Result<(), Refusal>
    requires token { is_blank (kind_of_shape piece.shape) ≡ false }
    requires good { is_bad (kind_of_shape piece.shape) ≡ false }
    requires quotes { HasQuotes piece.shape piece.at.start piece.at.end }
    ensures puts { OnOk result (Puts piece.entry.at.file names.old names.new tokens.old tokens.new (put (reverse levels.old.items) (Standing.Between column) (placed_of piece.entry))) }
    ensures levels { OnOk result (reverse levels.new.items ≡ opened column (reverse levels.old.items)) }
    ensures stops { IfErr result (StopsAt piece.entry.at.file (put (reverse levels.old.items) (Standing.Between column) (placed_of piece.entry))) }
    ensures names { Extends names.old names.new }
{
    begin_line(alloc, levels, tokens, column, piece.at)?;
    push_piece(alloc, tokens, names, piece)?;
    Ok(())
}

/// Puts what a piece between two lines is: with a token a line begins.
#[tactic(auto, using(crate::proofs::PutLaws::table_same))]
fn put_between(
    alloc: Global,
    levels: &mut Vec<usize>,
    tokens: &mut List<Token>,
    names: &mut NameTable,
    column: usize,
    piece: Piece,
) -> Result<(), Refusal>
    requires good { is_bad (kind_of_shape piece.shape) ≡ false }
    requires quotes { HasQuotes piece.shape piece.at.start piece.at.end }
    ensures puts { OnOk result (Puts piece.entry.at.file names.old names.new tokens.old tokens.new (put (reverse levels.old.items) (Standing.Between column) (placed_of piece.entry))) }
    ensures levels { OnOk result (reverse levels.new.items ≡ levels_after (reverse levels.old.items) (Standing.Between column) (placed_of piece.entry)) }
    ensures stops { IfErr result (StopsAt piece.entry.at.file (put (reverse levels.old.items) (Standing.Between column) (placed_of piece.entry))) }
    ensures names { Extends names.old names.new }
{
    if is_blank(piece.shape) {
        return Ok(());
    }
    put_first(alloc, levels, tokens, names, column, piece)
}

/// Puts what a piece in a line is: NEWLINE where the line ends, or a token.
#[tactic(auto, using(crate::proofs::PutLaws::table_same))]
fn put_within(
    alloc: Global,
    tokens: &mut List<Token>,
    names: &mut NameTable,
    brackets: usize,
    last: u32,
    piece: Piece,
) -> Result<(), Refusal>
    requires good { is_bad (kind_of_shape piece.shape) ≡ false }
    requires quotes { HasQuotes piece.shape piece.at.start piece.at.end }
    ensures puts { OnOk result (Puts piece.entry.at.file names.old names.new tokens.old tokens.new (put_within brackets last (placed_of piece.entry))) }
    ensures stops { IfErr result (StopsAt piece.entry.at.file (put_within brackets last (placed_of piece.entry))) }
    ensures names { Extends names.old names.new }
{
    if ends_line(piece.shape, brackets) {
        push_empty(tokens, TokenKind::Newline, piece.at.file, last)?;
    } else if !is_blank(piece.shape) {
        push_piece(alloc, tokens, names, piece)?;
    }
    Ok(())
}

/// How the piece in front of a text is spelled, which is followed by `rest`.
fn spelling<'a>(text: &'a str, shape: Shape, rest: &str) -> &'a str
    requires kind { kind_of_shape shape ≡ (front_of (chars text.now)).kind }
    requires behind { chars rest.now ≡ drop (length (front_of (chars text.now)).text) (chars text.now) }
    requires shorter { length rest.now < length text.now }
    ensures { IsFirst text.now shape result.now rest.now }
{
    before(text, rest)
}

/// The piece in front of a text, how it is spelled, and what follows it.
fn next_piece(text: &str) -> Option<(Shape, &str, &str)>
    ensures { MatchOption result (text.now ≡ []) (λ cut. IsFirst text.now cut.0 cut.1.now cut.2.now) }
{
    let (shape, rest) = front(text)?;
    Some((shape, spelling(text, shape, rest), rest))
}

/// Puts what a piece is that is no fault by its kind.
fn put_piece(
    alloc: Global,
    levels: &mut Vec<usize>,
    tokens: &mut List<Token>,
    names: &mut NameTable,
    standing: Standing,
    piece: Piece,
) -> Result<(), Refusal>
    requires good { is_bad (kind_of_shape piece.shape) ≡ false }
    requires quotes { HasQuotes piece.shape piece.at.start piece.at.end }
    ensures puts { OnOk result (Puts piece.entry.at.file names.old names.new tokens.old tokens.new (put (reverse levels.old.items) standing (placed_of piece.entry))) }
    ensures levels { OnOk result (reverse levels.new.items ≡ levels_after (reverse levels.old.items) standing (placed_of piece.entry)) }
    ensures stops { IfErr result (StopsAt piece.entry.at.file (put (reverse levels.old.items) standing (placed_of piece.entry))) }
    ensures names { Extends names.old names.new }
{
    match standing {
        Standing::Between(column) => put_between(alloc, levels, tokens, names, column, piece),
        Standing::Within { brackets, last } => put_within(
            alloc, tokens, names, brackets, last, piece,
        ),
    }
}

/// The fault that a piece is by its kind.
fn bad_kind(shape: Shape) -> Option<FaultKind>
    ensures { result ≡ bad_kind (kind_of_shape shape) }
{
    match shape {
        Shape::BadChar => Some(FaultKind::BadChar),
        Shape::OpenString => Some(FaultKind::OpenString),
        _ => None,
    }
}

/// Puts NEWLINE where a line is open.
fn close_line(tokens: &mut List<Token>, file: FileId, standing: Standing) -> Result<(), NoMemory>
    ensures { OnOk result ((names : List (List ℕ)) → Puts file names names tokens.old tokens.new (closing standing)) }
{
    match standing {
        Standing::Between(_) => Ok(()),
        Standing::Within { last, .. } => {
            push_empty(tokens, TokenKind::Newline, file, last)?;
            Ok(())
        }
    }
}

/// Puts the end of a file of so many bytes: NEWLINE where a line is open, a DEDENT for each open level, and END.
fn put_end(
    levels: &[usize],
    tokens: &mut List<Token>,
    file: FileId,
    standing: Standing,
    size: u32,
) -> Result<(), NoMemory>
    ensures { OnOk result ((names : List (List ℕ)) → Puts file names names tokens.old tokens.new (closing standing ++ last_items (reverse levels.now) size [])) }
{
    close_line(tokens, file, standing)?;
    push_end(levels, tokens, file, size)?;
    Ok(())
}

/// Puts what the pieces of a text are that begins at a byte, and what stands at its end.
pub(crate) fn scan(
    alloc: Global,
    names: &mut NameTable,
    file: FileId,
    text: &str,
    start: u32,
) -> Result<List<Token>, Refusal>
    requires { start + length text.now < 2 ^ 32 }
    ensures puts { IfOk result (λ tokens. Puts file names.old names.new [] tokens (scanned start text.now)) }
    ensures stops { IfErr result (StopsAt file (scanned start text.now)) }
    ensures names { Extends names.old names.new }
{
    let mut tokens = List::new(alloc);
    let mut levels = Vec::new(alloc);
    let mut standing = Standing::Between(0);
    let mut rest = text;
    let mut at = start;
    'pieces: while let Some((shape, spelled, after)) = next_piece(rest) {
        let end = at + spelled.len() as u32;
        let span = Span {
            file,
            start: at,
            end,
        };
        if let Some(kind) = bad_kind(shape) {
            return Err(refusal(alloc, kind, span));
        }
        let piece = Piece {
            shape,
            text: spelled,
            at: span,
        };
        put_piece(alloc, &mut levels, &mut tokens, names, standing, piece)?;
        standing = standing_after(standing, piece);
        rest = after;
        at = end;
    }
    put_end(levels.as_slice(), &mut tokens, file, standing, at)?;
    Ok(tokens)
}
