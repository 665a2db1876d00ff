//! A good file in which one token is changed.
use crate::board::{CLOSED, DOUBLED, DROPPED, EXCHANGED, MAIN};
use crate::runs::tokens_of;
use crate::source::{ROWS, Row, SOURCE};
use crate::spots::{push_kind, push_kinds, stops_at};
use ato_base::{List, Mark, NoMemory, Token, TokenKind};
use std::alloc::Global;
use std::test::Fail;

/// How many tokens behind the place of a change the first token stands that has no place; none where
/// what is left is a file.
pub(crate) type At = Option<usize>;

/// The tokens are still those of a file.
pub(crate) const GOOD: At = None;

/// The token that stands at the place of the change has no place.
pub(crate) const HERE: At = Some(0);

/// The token behind it has none.
pub(crate) const NEXT: At = Some(1);

/// What is done to a token.
#[derive(Clone, Copy, Debug, PartialEq, Eq)]
enum Edit {
    /// It is left out.
    LeaveOut,
    /// It stands twice.
    Double,
    /// It changes places with the one behind it.
    Exchange,
    /// `)` stands in place of it.
    Close,
}

/// Puts tokens with a change of the first.
fn push_edited(out: &mut List<Token>, tokens: &[Token], edit: Edit) -> Result<(), NoMemory> {
    match tokens {
        [] => Ok(()),
        [first, rest @ ..] => push_change(out, first, rest, edit),
    }
}

/// Puts a token with its change, and the tokens behind it.
fn push_change(
    out: &mut List<Token>,
    first: &Token,
    rest: &[Token],
    edit: Edit,
) -> Result<(), NoMemory> {
    match edit {
        Edit::LeaveOut => push_kinds(out, rest),
        Edit::Double => {
            push_kind(out, first.kind)?;
            push_kind(out, first.kind)?;
            push_kinds(out, rest)
        }
        Edit::Exchange => push_behind(out, first, rest),
        Edit::Close => {
            push_kind(out, TokenKind::Mark(Mark::RightParenthesis))?;
            push_kinds(out, rest)
        }
    }
}

/// Puts tokens with another one behind the first.
fn push_behind(out: &mut List<Token>, token: &Token, tokens: &[Token]) -> Result<(), NoMemory> {
    match tokens {
        [] => push_kind(out, token.kind),
        [first, rest @ ..] => {
            push_kind(out, first.kind)?;
            push_kind(out, token.kind)?;
            push_kinds(out, rest)
        }
    }
}

/// Whether tokens with a change at this place have their fault there.
fn has_fault(
    alloc: Global,
    tokens: &[Token],
    place: usize,
    edit: Edit,
    want: At,
) -> Result<bool, NoMemory> {
    let mut edited = List::new(alloc);
    push_kinds(&mut edited, tokens.get(..place).unwrap_or(&[]))?;
    push_edited(&mut edited, tokens.get(place..).unwrap_or(&[]), edit)?;
    let number = match want {
        None => None,
        Some(behind) => Some(place.saturating_add(behind)),
    };
    stops_at(alloc, edited.as_slice(), number)
}

/// How a token is written.
fn spelling<'a>(text: &'a str, token: &Token) -> &'a [u8] {
    match token.kind {
        TokenKind::Newline => b"NEWLINE",
        TokenKind::Indent => b"INDENT",
        TokenKind::Dedent => b"DEDENT",
        _ => text
            .as_bytes()
            .get(token.at.start as usize..token.at.end as usize)
            .unwrap_or(b""),
    }
}

/// Whether a token of the source is written so.
fn is_written(tokens: &[Token], place: usize, want: &str) -> bool {
    match tokens.get(place) {
        None => false,
        Some(token) => spelling(SOURCE, token) == want.as_bytes(),
    }
}

#[test]
fn a_row_stands_for_each_token(rt: HostRuntime) -> Result<(), Fail> {
    let tokens = tokens_of(rt.alloc(), SOURCE)?;
    assert!(rt; tokens.len() == ROWS.len() + 1);
    for (place, row) in ROWS.iter().enumerate() {
        assert!(rt;
            is_written(tokens.as_slice(), place, row.0),
            "{place} {}",
            row.0
        );
    }
    Ok(())
}

/// Whether END would not be the last token, or a change gives what a row says.
fn case(
    alloc: Global,
    tokens: &[Token],
    place: usize,
    edit: Edit,
    want: At,
) -> Result<bool, NoMemory> {
    if edit == Edit::Exchange && place.saturating_add(2) >= tokens.len() {
        return Ok(true);
    }
    has_fault(alloc, tokens, place, edit, want)
}

/// What a row says of a change.
fn told(row: &Row, edit: Edit) -> At {
    match edit {
        Edit::LeaveOut => row.1,
        Edit::Double => row.2,
        Edit::Exchange => row.3,
        Edit::Close => row.4,
    }
}

/// All changes.
const EDITS: &[Edit] = &[Edit::LeaveOut, Edit::Double, Edit::Exchange, Edit::Close];

#[test]
fn a_token_of_the_source_is_changed(rt: HostRuntime) -> Result<(), Fail> {
    let alloc = rt.alloc();
    let tokens = tokens_of(alloc, SOURCE)?;
    for (place, row) in ROWS.iter().enumerate() {
        for edit in EDITS {
            assert!(rt;
                case(alloc, tokens.as_slice(), place, *edit, told(row, *edit))?,
                "{place} {} {edit:?}",
                row.0
            );
        }
    }
    Ok(())
}

/// Where the fault stands at this place: as the table says, and else as usual.
fn listed(table: &[(usize, At)], place: usize, usual: At) -> At {
    for (number, at) in table {
        if *number == place {
            return *at;
        }
    }
    usual
}

/// The changes of the board, where the fault usually stands, and the places where it does not.
const BOARD_EDITS: &[(Edit, At, &[(usize, At)])] = &[
    (Edit::LeaveOut, HERE, DROPPED),
    (Edit::Double, NEXT, DOUBLED),
    (Edit::Exchange, HERE, EXCHANGED),
    (Edit::Close, HERE, CLOSED),
];

#[test]
fn a_token_of_the_board_is_changed(rt: HostRuntime) -> Result<(), Fail> {
    let alloc = rt.alloc();
    let tokens = tokens_of(alloc, MAIN)?;
    for place in 0..tokens.len().saturating_sub(1) {
        for (edit, usual, table) in BOARD_EDITS {
            assert!(rt;
                case(
                    alloc,
                    tokens.as_slice(),
                    place,
                    *edit,
                    listed(table, place, *usual)
                )?,
                "{place} {edit:?}"
            );
        }
    }
    Ok(())
}
