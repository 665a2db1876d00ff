//! The words of the command line, told apart from left to right.
ghost use Rattle.std.specs.Prelude.{◌≡◌, ◌==◌, drop, codes, fold, IfOk, MatchOption, true, false};
ghost use Rattle.std.specs.Bool.{nat_eq};
ghost use Rattle.std.specs.List.{starts_with};
ghost use Rattle.ato_words.specs.Words.{begins_with_dash, texts};
ghost use Rattle.ato_words.specs.WordLines.{no_words, turned, with_word, with_out, with_any, next_line, line_of, is_read};

use ato_base::{List, NoMemory, Text};
use std::alloc::Global;

/// How the next word is taken.
#[derive(Clone, Copy, Debug, PartialEq, Eq)]
pub(crate) enum Turn {
    /// It may be an option.
    Any,
    /// It is the value of `--out`.
    Value,
    /// It is positional, as every word after `--`.
    Positional,
    /// A word before it made the words no job.
    Refused,
}

/// The words so far: the positional ones in their order, and the value of `--out`.
#[derive(Debug, Drop)]
pub(crate) struct WordLine {
    pub turn: Turn,
    pub positional: List<Text>,
    pub out: Option<Text>,
}

fn begins_with_dash(word: &str) -> bool
    ensures { result ≡ begins_with_dash word.now }
{
    match word.as_bytes() {
        [] => false,
        [first, ..] => *first == b'-',
    }
}

/// The words before the first one.
fn no_words(alloc: Global) -> WordLine
    ensures { result ≡ no_words }
{
    WordLine {
        turn: Turn::Any,
        positional: List::new(alloc),
        out: None,
    }
}

/// The same words, with another turn for the next one.
fn turned(line: WordLine, turn: Turn) -> WordLine
    ensures { result ≡ turned line turn }
{
    let WordLine {
        turn: _,
        positional,
        out,
    } = line;
    WordLine {
        turn,
        positional,
        out,
    }
}

/// The words after a positional one.
fn with_word(alloc: Global, line: WordLine, word: &str) -> Result<WordLine, NoMemory>
    ensures { IfOk result (λ after. after ≡ with_word line word.now) }
{
    if begins_with_dash(word) {
        return Ok(turned(line, Turn::Refused));
    }
    let WordLine {
        turn,
        mut positional,
        out,
    } = line;
    positional.push(Text::copy(alloc, word)?)?;
    Ok(WordLine {
        turn,
        positional,
        out,
    })
}

/// The words after the value of `--out`.
fn with_out(alloc: Global, line: WordLine, value: &str) -> Result<WordLine, NoMemory>
    ensures { IfOk result (λ after. after ≡ with_out line value.now) }
{
    if begins_with_dash(value) || line.out.is_some() {
        return Ok(turned(line, Turn::Refused));
    }
    Ok(WordLine {
        turn: Turn::Any,
        positional: line.positional,
        out: Some(Text::copy(alloc, value)?),
    })
}

/// What stands behind `--out=`.
fn joined_value(word: &str) -> Option<&str>
    ensures { MatchOption result (starts_with nat_eq word.now (codes "--out=") ≡ false)
        (λ value. (starts_with nat_eq word.now (codes "--out=") ≡ true) × (value.now ≡ drop 6 word.now)) }
{
    word.strip_prefix("--out=")
}

/// The words after one that may be an option.
fn with_any(alloc: Global, line: WordLine, word: &str) -> Result<WordLine, NoMemory>
    ensures { IfOk result (λ after. after ≡ with_any line word.now) }
{
    if word == "--" {
        return Ok(turned(line, Turn::Positional));
    }
    if word == "--out" {
        return Ok(turned(line, Turn::Value));
    }
    match joined_value(word) {
        Some(value) => with_out(alloc, line, value),
        None => with_word(alloc, line, word),
    }
}

/// The words after one more.
fn next_line(alloc: Global, line: WordLine, word: &str) -> Result<WordLine, NoMemory>
    ensures { IfOk result (λ after. after ≡ next_line line word.now) }
{
    match line.turn {
        Turn::Any => with_any(alloc, line, word),
        Turn::Value => with_out(alloc, line, word),
        Turn::Positional => with_word(alloc, line, word),
        Turn::Refused => Ok(line),
    }
}

/// The words of the command line.
pub(crate) fn read_words(alloc: Global, words: &[String]) -> Result<WordLine, NoMemory>
    ensures { IfOk result (λ line. line ≡ line_of (texts words.now)) }
{
    let mut line = no_words(alloc);
    for word in words {
        line = next_line(alloc, line, word.as_str())?;
    }
    Ok(line)
}

impl Turn {
    /// Whether the words may end here: none was refused, and no option lacks its value.
    pub(crate) fn is_read(self) -> bool
        ensures { result ≡ is_read self }
    {
        match self {
            Turn::Any => true,
            Turn::Value => false,
            Turn::Positional => true,
            Turn::Refused => false,
        }
    }
}
