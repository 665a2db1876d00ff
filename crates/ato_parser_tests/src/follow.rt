//! Which tokens may follow which others.
use crate::follow_exprs::EXPRS;
use crate::follow_files::FILES;
use crate::follow_stmts::STMTS;
use crate::kinds::{KINDS, stands_in};
use crate::runs::tokens_of;
use crate::spots::{push_kind, push_kinds, stops_at};
use ato_base::{Keyword, List, NoMemory, Token, TokenKind};
use std::alloc::Global;
use std::test::Fail;

/// Puts the tokens before the first `for`, a keyword that the grammar does not use.
fn push_front(out: &mut List<Token>, tokens: &[Token]) -> Result<(), NoMemory> {
    for token in tokens {
        if token.kind == TokenKind::Keyword(Keyword::For) {
            return Ok(());
        }
        push_kind(out, token.kind)?;
    }
    Ok(())
}

/// The tokens of a text up to its end, without those that end its last line.
fn front_of(alloc: Global, before: &str, text: &str) -> Result<List<Token>, NoMemory> {
    let marked = format!(in alloc; "{before}{text}for")?;
    let tokens = tokens_of(alloc, &marked)?;
    let mut front = List::new(alloc);
    push_front(&mut front, tokens.as_slice())?;
    Ok(front)
}

/// Whether a token has its place behind others, or has none and the fault stands there. What it stands in
/// is then cut off, or whole.
fn follows(alloc: Global, front: &[Token], kind: TokenKind, fits: bool) -> Result<bool, NoMemory> {
    let place = front.len();
    let mut tokens = List::new(alloc);
    push_kinds(&mut tokens, front)?;
    push_kind(&mut tokens, kind)?;
    push_kind(&mut tokens, TokenKind::End)?;
    if !fits {
        return stops_at(alloc, tokens.as_slice(), Some(place));
    }
    Ok(
        stops_at(alloc, tokens.as_slice(), Some(place.saturating_add(1)))?
            || stops_at(alloc, tokens.as_slice(), None)?,
    )
}

/// Whether END has its place behind tokens, or the fault stands there.
fn ends(alloc: Global, front: &[Token], fits: bool) -> Result<bool, NoMemory> {
    let mut tokens = List::new(alloc);
    push_kinds(&mut tokens, front)?;
    push_kind(&mut tokens, TokenKind::End)?;
    let place = if fits { None } else { Some(front.len()) };
    stops_at(alloc, tokens.as_slice(), place)
}

/// The word of the first kind of which a row is wrong, or `end`; none where all is right.
fn wrong(
    alloc: Global,
    before: &str,
    text: &str,
    words: &str,
) -> Result<Option<&'static str>, NoMemory> {
    let front = front_of(alloc, before, text)?;
    for (word, kind) in KINDS {
        if !follows(alloc, front.as_slice(), *kind, stands_in(words, word))? {
            return Ok(Some(word));
        }
    }
    if !ends(alloc, front.as_slice(), stands_in(words, "end"))? {
        return Ok(Some("end"));
    }
    Ok(None)
}

#[test]
fn what_follows_in_a_file(rt: HostRuntime) -> Result<(), Fail> {
    for (text, words) in FILES {
        assert_eq!(rt; wrong(rt.alloc(), "", text, words)?, None, "{text:?}");
    }
    Ok(())
}

#[test]
fn what_follows_in_a_statement(rt: HostRuntime) -> Result<(), Fail> {
    for (text, words) in STMTS {
        assert_eq!(rt;
            wrong(rt.alloc(), "module M: ", text, words)?,
            None,
            "{text:?}"
        );
    }
    Ok(())
}

#[test]
fn what_follows_in_an_expression(rt: HostRuntime) -> Result<(), Fail> {
    for (text, words) in EXPRS {
        assert_eq!(rt;
            wrong(rt.alloc(), "module M: x = ", text, words)?,
            None,
            "{text:?}"
        );
    }
    Ok(())
}
