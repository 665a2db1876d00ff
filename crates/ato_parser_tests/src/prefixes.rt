//! Files that are cut off.
use crate::board::{MAIN, REGULATOR, SENSOR};
use crate::runs::tokens_of;
use crate::source::SOURCE;
use crate::spots::{push_kind, push_kinds, stops_at};
use ato_base::{List, NoMemory, Token, TokenKind};
use std::alloc::Global;
use std::test::Fail;

/// Good files, and how many of their first tokens are the tokens of a file, but for END. The last of these
/// are all of the file.
const CUTS: &[(&str, &[usize])] = &[
    (REGULATOR, &[0, 5, 45, 196]),
    (SENSOR, &[0, 7, 37, 167]),
    (MAIN, &[0, 5, 10, 17, 206]),
    (SOURCE, &[0, 5, 12, 31, 101]),
];

/// Whether END has no place behind these tokens, or has one where they are a file.
fn is_cut(alloc: Global, tokens: &[Token], good: bool) -> Result<bool, NoMemory> {
    let mut cut = List::new(alloc);
    push_kinds(&mut cut, tokens)?;
    push_kind(&mut cut, TokenKind::End)?;
    let number = if good { None } else { Some(tokens.len()) };
    stops_at(alloc, cut.as_slice(), number)
}

/// Whether the tokens up to this one are so.
fn case(alloc: Global, tokens: &[Token], length: usize, good: &[usize]) -> Result<bool, NoMemory> {
    match tokens.get(..length) {
        None => Ok(false),
        Some(front) => is_cut(alloc, front, good.contains(&length)),
    }
}

#[test]
fn a_file_is_cut_off(rt: HostRuntime) -> Result<(), Fail> {
    let alloc = rt.alloc();
    for (text, good) in CUTS {
        let tokens = tokens_of(alloc, text)?;
        assert!(rt;
            good.last().copied() == Some(tokens.len().saturating_sub(1)),
            "{text}"
        );
        for length in 0..tokens.len() {
            assert!(rt;
                case(alloc, tokens.as_slice(), length, good)?,
                "{length} of {text}"
            );
        }
    }
    Ok(())
}
