use ato_ast::{File, flat};
use ato_base::{
    Fault, FaultKind, FileId, List, NameTable, NoMemory, Place, Refusal, Span, Token, TokenKind,
};
use ato_lexer::lex;
use ato_parser::{ends_once, parse};
use std::alloc::Global;

/// The number of the file that each text has.
pub(crate) const FILE: FileId = FileId(1);

/// The tokens of a text, over a table of names. No text here is too long or has a fault of the lexer.
pub(crate) fn named_tokens(
    alloc: Global,
    text: &str,
    names: &mut NameTable,
) -> Result<List<Token>, NoMemory> {
    if text.len() >= 1_000_000 {
        return Err(NoMemory);
    }
    match lex(alloc, text.as_bytes(), FILE, names) {
        Ok(tokens) => Ok(tokens),
        Err(_) => Err(NoMemory),
    }
}

/// The tokens of a text.
pub(crate) fn tokens_of(alloc: Global, text: &str) -> Result<List<Token>, NoMemory> {
    let mut names = NameTable::new(alloc)?;
    named_tokens(alloc, text, &mut names)
}

/// What the parser says of tokens. All that are tried here end once.
pub(crate) fn parsed(alloc: Global, tokens: &[Token]) -> Result<File, Refusal> {
    if !ends_once(tokens) {
        return Err(Refusal::NoMemory);
    }
    parse(alloc, tokens)
}

/// The tree of a text, which has one.
pub(crate) fn tree_of(alloc: Global, tokens: &[Token]) -> Result<File, NoMemory> {
    match parsed(alloc, tokens) {
        Ok(file) => Ok(file),
        Err(_) => Err(NoMemory),
    }
}

/// Whether kinds are those of tokens.
pub(crate) fn are_kinds(kinds: &[TokenKind], tokens: &[Token]) -> bool {
    for (kind, token) in kinds.iter().zip(tokens.iter()) {
        if *kind != token.kind {
            return false;
        }
    }
    kinds.len() == tokens.len()
}

/// Whether tokens have a tree that is written out as their kinds.
pub(crate) fn has_kinds(alloc: Global, tokens: &[Token]) -> Result<bool, NoMemory> {
    let file = tree_of(alloc, tokens)?;
    let kinds = flat(alloc, &file)?;
    Ok(are_kinds(kinds.as_slice(), tokens))
}

/// Whether a fault is of this kind, stands there, and says nothing else.
fn is_fault(fault: &Fault, kind: FaultKind, at: Span) -> bool {
    fault.kind == kind
        && fault.at == Place::Source(at)
        && fault.other.is_none()
        && fault.path.is_empty()
}

/// Whether tokens have this fault at this place, or a tree where none is given.
pub(crate) fn answers(
    alloc: Global,
    tokens: &[Token],
    want: Option<(FaultKind, Span)>,
) -> Result<bool, NoMemory> {
    match parsed(alloc, tokens) {
        Ok(_) => Ok(want.is_none()),
        Err(Refusal::NoMemory) => Err(NoMemory),
        Err(Refusal::Fault(fault)) => match want {
            None => Ok(false),
            Some((kind, at)) => Ok(is_fault(&fault, kind, at)),
        },
    }
}
