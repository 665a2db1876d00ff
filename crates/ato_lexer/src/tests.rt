//! Worked texts, each with its tokens or its first fault in short.
//!
//! A token is printed as what it is and where it stands, as `name3@0..4` for the name with number 3 in
//! the first four bytes. A number is its value, `large` or `decimal`, a string `str` with the place of
//! what stands between its quotes, and a keyword or a mark its spelling. A fault is its name and its
//! place, as `BadChar@3..4`.
mod bad_text;
mod lines;
mod names;
mod numbers;
mod strings;
mod words;

use crate::lex;
use ato_base::{Fault, FileId, List, NameTable, NoMemory, Place, Refusal, Span, Token, TokenKind};
use std::alloc::Global;

const FILE: FileId = FileId(1);

/// The tokens of a text that is not too long.
fn lexed(alloc: Global, text: &[u8], names: &mut NameTable) -> Result<List<Token>, Refusal> {
    if text.len() >= 1_000_000 {
        return Err(Refusal::NoMemory);
    }
    lex(alloc, text, FILE, names)
}

/// Puts what a token is.
fn put_kind(out: &mut String, kind: TokenKind) -> Result<(), NoMemory> {
    match kind {
        TokenKind::Name(name) => write!(out, "name{}", name.0)?,
        TokenKind::Number {
            small: Some(value),
            ..
        } => write!(out, "{value}")?,
        TokenKind::Number { whole: true, .. } => out.push_str("large")?,
        TokenKind::Number { .. } => out.push_str("decimal")?,
        TokenKind::Str(inside) => write!(out, "str({}..{})", inside.start, inside.end)?,
        TokenKind::Keyword(keyword) => out.push_str(keyword.spelling())?,
        TokenKind::Mark(mark) => out.push_str(mark.spelling())?,
        TokenKind::Newline => out.push_str("newline")?,
        TokenKind::Indent => out.push_str("indent")?,
        TokenKind::Dedent => out.push_str("dedent")?,
        TokenKind::End => out.push_str("end")?,
    }
    Ok(())
}

/// Whether all places of a token are in the file, that of a number is the token's, and a small number
/// is whole.
fn is_placed(token: &Token) -> bool {
    let right = match token.kind {
        TokenKind::Number { whole, small, at } => at == token.at && (whole || small.is_none()),
        TokenKind::Str(inside) => inside.file == FILE,
        _ => true,
    };
    right && token.at.file == FILE
}

/// Puts tokens, with a space between two.
fn put_tokens(out: &mut String, tokens: &[Token]) -> Result<(), NoMemory> {
    for token in tokens {
        if !out.is_empty() {
            out.push_str(" ")?;
        }
        if !is_placed(token) {
            out.push_str("misplaced ")?;
        }
        put_kind(out, token.kind)?;
        write!(out, "@{}..{}", token.at.start, token.at.end)?;
    }
    Ok(())
}

/// Puts a fault that has one place and no path.
fn put_fault(out: &mut String, fault: &Fault) -> Result<(), NoMemory> {
    match fault.at {
        Place::Source(Span { file, start, end })
            if file == FILE && fault.other.is_none() && fault.path.is_empty() => {
            write!(out, "{}@{start}..{end}", fault.kind.name())?
        }
        _ => out.push_str("misplaced")?,
    }
    Ok(())
}

/// The tokens of a text or its first fault, printed.
fn printed(alloc: Global, text: &[u8], names: &mut NameTable) -> Result<String, NoMemory> {
    let mut out = String::new(alloc);
    match lexed(alloc, text, names) {
        Ok(tokens) => put_tokens(&mut out, tokens.as_slice())?,
        Err(Refusal::Fault(fault)) => put_fault(&mut out, &fault)?,
        Err(Refusal::NoMemory) => return Err(NoMemory),
    }
    Ok(out)
}

/// Whether a text, over a new table of names, is printed so.
fn case(alloc: Global, text: &[u8], want: &str) -> Result<bool, NoMemory> {
    let mut names = NameTable::new(alloc)?;
    Ok(printed(alloc, text, &mut names)?.as_str() == want)
}
