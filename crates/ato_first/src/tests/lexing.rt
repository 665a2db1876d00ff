use crate::lex;
use ato_base::{
    FileId, Keyword, Mark, Name, NameTable, NoMemory, Place, Refusal, Span, Token, TokenKind,
};
use std::alloc::Global;
use std::test::Fail;

/// Where the first line of a short text begins that is not of the form, if there is one.
fn bad_line(alloc: Global, text: &[u8]) -> Result<Option<u32>, NoMemory> {
    if text.len() >= 1000 {
        return Err(NoMemory);
    }
    let mut names = NameTable::new(alloc)?;
    match lex(alloc, text, FileId(1), &mut names) {
        Ok(_) => Ok(None),
        Err(Refusal::NoMemory) => Err(NoMemory),
        Err(Refusal::Fault(fault)) => match fault.at {
            Place::Source(span) => Ok(Some(span.start)),
            _ => Err(NoMemory),
        },
    }
}

/// Texts, and where their first bad lines begin.
const TEXTS: &[(&str, Option<u32>)] = &[
    ("", None),
    ("component Two:\n    pass\n", None),
    ("component Two:\n    pin 123456789012345678\n", None),
    ("component Two:", Some(0)),
    ("component Two:\n", Some(15)),
    ("component Two:\n    pass", Some(15)),
    ("component Two:\n\tpass\n", Some(15)),
    ("component Two:\n   pass\n", Some(15)),
    ("component  Two:\n    pass\n", Some(0)),
    ("component Two:\n    pass\n    pin\n", Some(24)),
    ("component Two:\n    pin 1234567890123456789\n", Some(15)),
    ("component Two:\n    signal pass\n", Some(15)),
    ("component module:\n    pass\n", Some(0)),
    ("component Two:\r\n    pass\r\n", Some(0)),
    ("component Two:\n\n    pass\n", Some(15)),
    ("component Two:\n    pass # all\n", Some(15)),
    ("component Two:\n    signal a\n    a ~ 1\n", Some(28)),
    (
        "component Two:\n    pass\ncomponent Three:\n    pass\n",
        Some(24),
    ),
    ("component Two :\n    pass\n", Some(0)),
];

/// Whether the first bad line of a text begins here.
fn is_bad_at(alloc: Global, text: &[u8], start: Option<u32>) -> Result<bool, NoMemory> {
    Ok(bad_line(alloc, text)? == start)
}

#[test]
fn finds_the_first_bad_line(rt: HostRuntime) -> Result<(), Fail> {
    for (text, start) in TEXTS {
        assert!(rt;
            is_bad_at(rt.alloc(), text.as_bytes(), *start)?,
            "at {text}"
        );
    }
    let no_text = b"component Two:\n    pin \xff\n";
    assert!(rt; is_bad_at(rt.alloc(), no_text, Some(15))?);
    Ok(())
}

/// The same of the file of one line.
fn is_line_bad_at(alloc: Global, words: &str, start: Option<u32>) -> Result<bool, NoMemory> {
    let text = format!(in alloc; "component Two:\n    {words}\n")?;
    is_bad_at(alloc, text.as_bytes(), start)
}

/// Lines that are joins.
const JOINS: &[&str] = &[
    "a ~ pin 1",
    "pin 2 ~ a",
    "signal a ~ pin 1",
    "signal a ~ signal b",
    "pin 1 ~ pin 2",
    "a ~ b",
    "pin out ~ pins",
];

/// Lines that are none, nor anything else.
const NO_JOINS: &[&str] = &[
    "a~b",
    "a ~",
    "~ a",
    "a ~ b ~ c",
    "a  ~ b",
    "a ~  b",
    "1 ~ a",
    "a ~ 1",
    "pass ~ a",
    "a ~ pass",
    "signal ~ a",
    "a",
    "a ~ b ",
    "a b ~ c",
];

#[test]
fn tells_what_a_join_is(rt: HostRuntime) -> Result<(), Fail> {
    for words in JOINS {
        assert!(rt; is_line_bad_at(rt.alloc(), words, None)?, "at {words}");
    }
    for words in NO_JOINS {
        assert!(rt; is_line_bad_at(rt.alloc(), words, Some(15))?, "at {words}");
    }
    Ok(())
}

/// Lines of a part, each of which wants the two others.
const PART_LINES: &[&str] = &[
    "kind = \"r2D2\"",
    "kind = \"123\"",
    "x: dimensionless",
    "dimensionless: dimensionless",
    "assert x within 123456789012345678 to 0",
];

/// Lines that are none, nor anything else.
const NO_PART_LINES: &[&str] = &[
    "kind = \"\"",
    "kind = \"a b\"",
    "kind = \"a_b\"",
    "kind = \"é\"",
    "kind = \"a",
    "kind = 'a'",
    "kind  = \"a\"",
    "kind=\"a\"",
    "sort = \"a\"",
    "kind: dimensionless",
    "part: dimensionless",
    "package: dimensionless",
    "footprint: dimensionless",
    "price: dimensionless",
    "designator_prefix: dimensionless",
    "pin: dimensionless",
    "1x: dimensionless",
    "x : dimensionless",
    "x:  dimensionless",
    "x: volt",
    "assert x within 1 to 1234567890123456789",
    "assert x within 1 to",
    "assert x within -1 to 2",
    "assert x  within 1 to 2",
    "assert x within 1  to 2",
    "assert pin within 1 to 2",
];

#[test]
fn tells_what_a_line_of_a_part_is(rt: HostRuntime) -> Result<(), Fail> {
    for words in PART_LINES {
        assert!(rt; is_line_bad_at(rt.alloc(), words, Some(0))?, "at {words}");
    }
    for words in NO_PART_LINES {
        assert!(rt; is_line_bad_at(rt.alloc(), words, Some(15))?, "at {words}");
    }
    Ok(())
}

/// The lines that describe a part take 15, 21 and 27 bytes, behind a first line of 15.
const KIND: &str = "kind = \"r\"";

const ATTRIBUTE: &str = "x: dimensionless";

const ASSERTION: &str = "assert x within 1 to 2";

/// Files of four lines, and where their first bad lines begin.
const FOUR_LINES: &[([&str; 4], Option<u32>)] = &[
    ([KIND, ATTRIBUTE, ASSERTION, "pass"], None),
    ([ASSERTION, "pin x", ATTRIBUTE, KIND], None),
    (
        [KIND, ATTRIBUTE, "assert y within 9 to 1", "signal kind"],
        None,
    ),
    ([KIND, ATTRIBUTE, ASSERTION, "x ~ pin 1"], None),
    ([KIND, ATTRIBUTE, "pass", "pass"], Some(0)),
    (["pass", ATTRIBUTE, ASSERTION, "pass"], Some(0)),
    ([ASSERTION, KIND, "pass", "pass"], Some(0)),
    ([KIND, KIND, ATTRIBUTE, ASSERTION], Some(30)),
    ([ATTRIBUTE, KIND, "y: dimensionless", ASSERTION], Some(51)),
    ([ASSERTION, ASSERTION, "pas", KIND], Some(42)),
    ([KIND, "pas", KIND, "pass"], Some(30)),
    ([KIND, ATTRIBUTE, ASSERTION, "signal x"], Some(30)),
    (["signal x ~ pin 1", KIND, ATTRIBUTE, ASSERTION], Some(51)),
    ([ATTRIBUTE, "pin 1 ~ signal x", "pas", KIND], Some(15)),
    ([ATTRIBUTE, "pas", "signal x", KIND], Some(36)),
];

/// Whether the first bad line of a file of these four begins here.
fn are_bad_at(alloc: Global, lines: &[&str; 4], start: Option<u32>) -> Result<bool, NoMemory> {
    let [first, second, third, last] = *lines;
    let words = format!(in alloc; "{first}\n    {second}\n    {third}\n    {last}")?;
    is_line_bad_at(alloc, &words, start)
}

#[test]
fn tells_which_lines_describe_a_part(rt: HostRuntime) -> Result<(), Fail> {
    for (number, (lines, start)) in FOUR_LINES.iter().enumerate() {
        assert!(rt; are_bad_at(rt.alloc(), lines, *start)?, "case {number}");
    }
    Ok(())
}

const FILE: FileId = FileId(1);

/// What a token is to be: of this kind, or a whole number with its small value.
enum Want {
    Kind(TokenKind),
    Whole(Option<u16>),
}

use Want::{Kind, Whole};

/// A token that is to be: what it is, its start and its end.
type Row = (Want, u32, u32);

/// Whether a token is as a row has it.
fn is_token(token: &Token, row: &Row) -> bool {
    let at = Span {
        file: FILE,
        start: row.1,
        end: row.2,
    };
    let kind = match row.0 {
        Kind(kind) => kind,
        Whole(small) => TokenKind::Number {
            whole: true,
            small,
            at,
        },
    };
    *token == Token { kind, at }
}

/// Whether a text has these tokens.
fn has_tokens(alloc: Global, text: &[u8], want: &[Row]) -> Result<bool, NoMemory> {
    let mut names = NameTable::new(alloc)?;
    if text.len() >= 1000 {
        return Ok(false);
    }
    match lex(alloc, text, FILE, &mut names) {
        Ok(tokens) => {
            let tokens = tokens.as_slice();
            let fit = tokens
                .iter()
                .zip(want)
                .all(|(token, row)| is_token(token, row));
            Ok(tokens.len() == want.len() && fit)
        }
        Err(_) => Ok(false),
    }
}

const TWO_TOKENS: &[Row] = &[
    (Kind(TokenKind::Keyword(Keyword::Component)), 0, 9),
    (Kind(TokenKind::Name(Name(3))), 10, 13),
    (Kind(TokenKind::Mark(Mark::Colon)), 13, 14),
    (Kind(TokenKind::Newline), 14, 14),
    (Kind(TokenKind::Indent), 19, 19),
    (Kind(TokenKind::Keyword(Keyword::Signal)), 19, 25),
    (Kind(TokenKind::Name(Name(4))), 26, 29),
    (Kind(TokenKind::Newline), 29, 29),
    (Kind(TokenKind::Keyword(Keyword::Pin)), 34, 37),
    (Whole(Some(65_535)), 38, 43),
    (Kind(TokenKind::Newline), 43, 43),
    (Kind(TokenKind::Keyword(Keyword::Pin)), 48, 51),
    (Whole(None), 52, 57),
    (Kind(TokenKind::Newline), 57, 57),
    (Kind(TokenKind::Keyword(Keyword::Pass)), 62, 66),
    (Kind(TokenKind::Newline), 66, 66),
    (Kind(TokenKind::Keyword(Keyword::Pin)), 71, 74),
    (Kind(TokenKind::Name(Name(4))), 75, 78),
    (Kind(TokenKind::Newline), 78, 78),
    (Kind(TokenKind::Dedent), 79, 79),
    (Kind(TokenKind::End), 79, 79),
];

#[test]
fn gives_the_tokens_with_their_places(rt: HostRuntime) -> Result<(), Fail> {
    let text =
        b"component Two:\n    signal out\n    pin 65535\n    pin 65536\n    pass\n    pin out\n";
    assert!(rt; has_tokens(rt.alloc(), text, TWO_TOKENS)?);
    Ok(())
}

const JOINED_TOKENS: &[Row] = &[
    (Kind(TokenKind::Keyword(Keyword::Component)), 0, 9),
    (Kind(TokenKind::Name(Name(3))), 10, 13),
    (Kind(TokenKind::Mark(Mark::Colon)), 13, 14),
    (Kind(TokenKind::Newline), 14, 14),
    (Kind(TokenKind::Indent), 19, 19),
    (Kind(TokenKind::Keyword(Keyword::Signal)), 19, 25),
    (Kind(TokenKind::Name(Name(4))), 26, 27),
    (Kind(TokenKind::Newline), 27, 27),
    (Kind(TokenKind::Name(Name(4))), 32, 33),
    (Kind(TokenKind::Mark(Mark::Tilde)), 34, 35),
    (Kind(TokenKind::Keyword(Keyword::Pin)), 36, 39),
    (Whole(Some(1)), 40, 41),
    (Kind(TokenKind::Newline), 41, 41),
    (Kind(TokenKind::Keyword(Keyword::Pin)), 46, 49),
    (Whole(Some(2)), 50, 51),
    (Kind(TokenKind::Mark(Mark::Tilde)), 52, 53),
    (Kind(TokenKind::Keyword(Keyword::Signal)), 54, 60),
    (Kind(TokenKind::Name(Name(5))), 61, 62),
    (Kind(TokenKind::Newline), 62, 62),
    (Kind(TokenKind::Dedent), 63, 63),
    (Kind(TokenKind::End), 63, 63),
];

#[test]
fn gives_the_tokens_of_joins(rt: HostRuntime) -> Result<(), Fail> {
    let text = b"component Two:\n    signal a\n    a ~ pin 1\n    pin 2 ~ signal b\n";
    assert!(rt; has_tokens(rt.alloc(), text, JOINED_TOKENS)?);
    Ok(())
}

/// The place of the text in the quotes of the next file.
const INSIDE: Span = Span {
    file: FILE,
    start: 25,
    end: 27,
};

const PART_TOKENS: &[Row] = &[
    (Kind(TokenKind::Keyword(Keyword::Component)), 0, 9),
    (Kind(TokenKind::Name(Name(3))), 10, 11),
    (Kind(TokenKind::Mark(Mark::Colon)), 11, 12),
    (Kind(TokenKind::Newline), 12, 12),
    (Kind(TokenKind::Indent), 17, 17),
    (Kind(TokenKind::Name(Name(4))), 17, 21),
    (Kind(TokenKind::Mark(Mark::Equal)), 22, 23),
    (Kind(TokenKind::Str(INSIDE)), 24, 28),
    (Kind(TokenKind::Newline), 28, 28),
    (Kind(TokenKind::Name(Name(5))), 33, 36),
    (Kind(TokenKind::Mark(Mark::Colon)), 36, 37),
    (Kind(TokenKind::Name(Name(6))), 38, 51),
    (Kind(TokenKind::Newline), 51, 51),
    (Kind(TokenKind::Keyword(Keyword::Assert)), 56, 62),
    (Kind(TokenKind::Name(Name(7))), 63, 64),
    (Kind(TokenKind::Keyword(Keyword::Within)), 65, 71),
    (Whole(Some(65_535)), 72, 77),
    (Kind(TokenKind::Keyword(Keyword::To)), 78, 80),
    (Whole(None), 81, 86),
    (Kind(TokenKind::Newline), 86, 86),
    (Kind(TokenKind::Keyword(Keyword::Pin)), 91, 94),
    (Kind(TokenKind::Name(Name(6))), 95, 108),
    (Kind(TokenKind::Newline), 108, 108),
    (Kind(TokenKind::Dedent), 109, 109),
    (Kind(TokenKind::End), 109, 109),
];

#[test]
fn gives_the_tokens_of_a_part(rt: HostRuntime) -> Result<(), Fail> {
    let text =
        b"component T:\n    kind = \"r2\"\n    x_1: dimensionless\n    assert y within 65535 to 65536\n    pin dimensionless\n";
    assert!(rt; has_tokens(rt.alloc(), text, PART_TOKENS)?);
    Ok(())
}
