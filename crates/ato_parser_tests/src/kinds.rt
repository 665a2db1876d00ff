//! Tokens of each kind, and files of one token.
use crate::runs::FILE;
use crate::spots::{push_kind, stops_at};
use ato_base::{Keyword, List, Mark, Name, NoMemory, Span, Token, TokenKind};
use ato_parser::ends_once;
use std::alloc::Global;
use std::test::Fail;

/// Some bytes of the file.
const AT: Span = Span {
    file: FILE,
    start: 7,
    end: 9,
};

/// Tokens of each kind but END, with a word for what they are to the grammar. The names are one that stands for
/// nothing, `abs`, `max` and `min`.
pub(crate) const KINDS: &[(&str, TokenKind)] = &[
    ("name", TokenKind::Name(Name(3))),
    ("name", TokenKind::Name(Name(0))),
    ("name", TokenKind::Name(Name(1))),
    ("name", TokenKind::Name(Name(2))),
    (
        "1..16",
        TokenKind::Number {
            whole: true,
            small: Some(1),
            at: AT,
        },
    ),
    (
        "1..16",
        TokenKind::Number {
            whole: true,
            small: Some(16),
            at: AT,
        },
    ),
    (
        "whole",
        TokenKind::Number {
            whole: true,
            small: Some(0),
            at: AT,
        },
    ),
    (
        "whole",
        TokenKind::Number {
            whole: true,
            small: Some(17),
            at: AT,
        },
    ),
    (
        "whole",
        TokenKind::Number {
            whole: true,
            small: Some(65535),
            at: AT,
        },
    ),
    (
        "whole",
        TokenKind::Number {
            whole: true,
            small: None,
            at: AT,
        },
    ),
    (
        "decimal",
        TokenKind::Number {
            whole: false,
            small: None,
            at: AT,
        },
    ),
    ("str", TokenKind::Str(AT)),
    ("module", TokenKind::Keyword(Keyword::Module)),
    ("component", TokenKind::Keyword(Keyword::Component)),
    ("interface", TokenKind::Keyword(Keyword::Interface)),
    ("from", TokenKind::Keyword(Keyword::From)),
    ("import", TokenKind::Keyword(Keyword::Import)),
    ("new", TokenKind::Keyword(Keyword::New)),
    ("signal", TokenKind::Keyword(Keyword::Signal)),
    ("pin", TokenKind::Keyword(Keyword::Pin)),
    ("assert", TokenKind::Keyword(Keyword::Assert)),
    ("within", TokenKind::Keyword(Keyword::Within)),
    ("is", TokenKind::Keyword(Keyword::Is)),
    ("to", TokenKind::Keyword(Keyword::To)),
    ("pass", TokenKind::Keyword(Keyword::Pass)),
    ("for", TokenKind::Keyword(Keyword::For)),
    ("in", TokenKind::Keyword(Keyword::In)),
    ("True", TokenKind::Keyword(Keyword::True)),
    ("False", TokenKind::Keyword(Keyword::False)),
    ("+/-", TokenKind::Mark(Mark::PlusMinus)),
    ("->", TokenKind::Mark(Mark::Arrow)),
    ("**", TokenKind::Mark(Mark::Power)),
    ("<=", TokenKind::Mark(Mark::LessEqual)),
    (">=", TokenKind::Mark(Mark::GreaterEqual)),
    ("<", TokenKind::Mark(Mark::Less)),
    (">", TokenKind::Mark(Mark::Greater)),
    ("=", TokenKind::Mark(Mark::Equal)),
    ("~", TokenKind::Mark(Mark::Tilde)),
    (":", TokenKind::Mark(Mark::Colon)),
    (";", TokenKind::Mark(Mark::Semicolon)),
    (",", TokenKind::Mark(Mark::Comma)),
    (".", TokenKind::Mark(Mark::Dot)),
    ("(", TokenKind::Mark(Mark::LeftParenthesis)),
    (")", TokenKind::Mark(Mark::RightParenthesis)),
    ("[", TokenKind::Mark(Mark::LeftBracket)),
    ("]", TokenKind::Mark(Mark::RightBracket)),
    ("+", TokenKind::Mark(Mark::Plus)),
    ("-", TokenKind::Mark(Mark::Minus)),
    ("*", TokenKind::Mark(Mark::Star)),
    ("/", TokenKind::Mark(Mark::Slash)),
    ("|", TokenKind::Mark(Mark::Bar)),
    ("%", TokenKind::Mark(Mark::Percent)),
    ("newline", TokenKind::Newline),
    ("indent", TokenKind::Indent),
    ("dedent", TokenKind::Dedent),
];

/// What a file may begin with.
const FIRST: &str = "import from str pass module component interface";

/// Whether a word stands among words with blanks between.
pub(crate) fn stands_in(words: &str, wanted: &str) -> bool {
    for word in words.split(' ') {
        if word == wanted {
            return true;
        }
    }
    false
}

/// Whether a file of this token alone is cut off where files begin with it, and else has its fault there.
fn is_alone(alloc: Global, word: &str, kind: TokenKind) -> Result<bool, NoMemory> {
    let mut tokens = List::new(alloc);
    push_kind(&mut tokens, kind)?;
    push_kind(&mut tokens, TokenKind::End)?;
    let place = if stands_in(FIRST, word) { 1 } else { 0 };
    stops_at(alloc, tokens.as_slice(), Some(place))
}

#[test]
fn a_file_of_one_token(rt: HostRuntime) -> Result<(), Fail> {
    let alloc = rt.alloc();
    for (word, kind) in KINDS {
        assert!(rt; is_alone(alloc, word, *kind)?, "{word} {kind:?}");
    }
    Ok(())
}

const PASS: Token = Token {
    kind: TokenKind::Keyword(Keyword::Pass),
    at: AT,
};

const END: Token = Token {
    kind: TokenKind::End,
    at: AT,
};

/// Tokens, and whether they end once.
const ENDS: &[(&[Token], bool)] = &[
    (&[], false),
    (&[PASS], false),
    (&[END], true),
    (&[PASS, END], true),
    (&[END, PASS], false),
    (&[END, END], false),
    (&[PASS, PASS, END], true),
    (&[PASS, END, PASS, END], false),
];

#[test]
fn tokens_end_once(rt: HostRuntime) -> Result<(), Fail> {
    for (tokens, once) in ENDS {
        assert!(rt; ends_once(tokens) == *once, "{tokens:?}");
    }
    Ok(())
}
