use crate::runs::{FILE, answers};
use ato_base::{FaultKind, List, NoMemory, Span, Token, TokenKind};
use std::alloc::Global;

/// The place of a token by its number, where each token has one byte.
pub(crate) fn spot(number: usize) -> Span {
    let start = number.min(1_000_000) as u32;
    Span {
        file: FILE,
        start,
        end: start + 1,
    }
}

/// Puts a token at the next place.
pub(crate) fn push_kind(out: &mut List<Token>, kind: TokenKind) -> Result<(), NoMemory> {
    let at = spot(out.len());
    out.push(Token { kind, at })
}

/// Puts the kinds of tokens at the next places.
pub(crate) fn push_kinds(out: &mut List<Token>, tokens: &[Token]) -> Result<(), NoMemory> {
    for token in tokens {
        push_kind(out, token.kind)?;
    }
    Ok(())
}

/// Whether tokens with places by their numbers have no place for the token of this number, or have a
/// tree where none is given.
pub(crate) fn stops_at(
    alloc: Global,
    tokens: &[Token],
    number: Option<usize>,
) -> Result<bool, NoMemory> {
    match number {
        None => answers(alloc, tokens, None),
        Some(number) => answers(alloc, tokens, Some((FaultKind::Syntax, spot(number)))),
    }
}
