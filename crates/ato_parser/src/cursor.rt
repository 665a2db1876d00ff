//! Tokens that are read one by one. Loops that read as long as something follows go on for at most as many turns as tokens are left, and
//! so they end.
ghost use Rattle.std.specs.Prelude.{◌≡◌, length, Ok, Err, MatchResult, if◌then◌else◌, true, false};
ghost use Rattle.ato_parser.specs.Input as spec;
ghost use Rattle.ato_parser.specs.Kinds.{is_mark, is_keyword, is_newline, is_indent, is_dedent};
ghost use Rattle.ato_parser.specs.FileReading.{start};
ghost use Rattle.ato_parser.specs.Tokens.{cover};

use crate::kinds::{is_dedent, is_indent, is_keyword, is_mark, is_newline};
use crate::stop::Stop;
use ato_base::{FileId, Keyword, Mark, Span, Token, TokenKind};
use std::marker::Model;

/// No bytes, of the first file.
const NOWHERE: Span = Span {
    file: FileId(0),
    start: 0,
    end: 0,
};

/// The tokens that are still to be read, and where the last one stood that was read.
#[derive(Drop)]
pub(crate) struct Tokens<'a> {
    last: Span,
    ahead: &'a [Token],
}

impl<'a> Model for Tokens<'a> {
    ghost use Rattle.ato_parser.specs.Input.{Input};

    ghost Value = { Input };

    ghost view = { λ t. record { last = t.last; ahead = t.ahead.now } };
}

/// From the start of the one to the end of the other.
pub(crate) fn cover(first: Span, last: Span) -> Span
    ensures { result ≡ cover first last }
{
    Span {
        file: first.file,
        start: first.start,
        end: last.end,
    }
}

impl<'a> Tokens<'a> {
    /// A file's tokens, from the first one on.
    pub(crate) fn new(tokens: &'a [Token]) -> Tokens<'a>
        ensures { result ≡ start tokens.now }
    {
        Tokens {
            last: NOWHERE,
            ahead: tokens,
        }
    }

    /// How many tokens are left.
    pub(crate) fn left(&self) -> usize
        ensures { result ≡ length self.now.ahead }
    {
        self.ahead.len()
    }

    /// The kind of the next token; END where there is none.
    pub(crate) fn peek(&self) -> TokenKind
        ensures { result ≡ spec.kind_of self.now.ahead }
    {
        match self.ahead {
            [] => TokenKind::End,
            [token, ..] => token.kind,
        }
    }

    /// Where the next token stands.
    pub(crate) fn here(&self) -> Span
        ensures { result ≡ spec.span_of self.now.ahead }
    {
        match self.ahead {
            [] => NOWHERE,
            [token, ..] => token.at,
        }
    }

    /// From this place to the end of the last token that was read.
    pub(crate) fn since(&self, from: Span) -> Span
        ensures { result ≡ cover from self.now.last }
    {
        cover(from, self.last)
    }

    /// Goes behind the next token, and gives where it stands.
    pub(crate) fn take(&mut self) -> Span
        ensures at { result ≡ spec.span_of self.old.ahead }
        ensures next { self.new ≡ spec.past self.old.last self.old.ahead }
    {
        let at = self.here();
        if let [token, rest @ ..] = self.ahead {
            self.last = token.at;
            self.ahead = rest;
        }
        at
    }

    /// There is no place for the next token.
    pub(crate) fn refuse(&self) -> Stop
        ensures { result ≡ Stop.Syntax (length self.now.ahead) }
    {
        Stop::Syntax(self.left())
    }

    /// Whether the next token is this mark.
    pub(crate) fn sees(&self, mark: Mark) -> bool
        ensures { result ≡ is_mark mark (spec.kind_of self.now.ahead) }
    {
        is_mark(mark, self.peek())
    }

    /// Whether the next token is this keyword.
    pub(crate) fn sees_keyword(&self, keyword: Keyword) -> bool
        ensures { result ≡ is_keyword keyword (spec.kind_of self.now.ahead) }
    {
        is_keyword(keyword, self.peek())
    }

    /// Goes behind this mark where it is the next token, and says whether it was.
    pub(crate) fn eat(&mut self, mark: Mark) -> bool
        ensures found { result ≡ is_mark mark (spec.kind_of self.old.ahead) }
        ensures next { self.new ≡ (if result then spec.past self.old.last self.old.ahead else self.old) }
    {
        let found = self.sees(mark);
        if found {
            self.take();
        }
        found
    }

    /// Goes behind this keyword where it is the next token, and says whether it was.
    pub(crate) fn eat_keyword(&mut self, keyword: Keyword) -> bool
        ensures found { result ≡ is_keyword keyword (spec.kind_of self.old.ahead) }
        ensures next { self.new ≡ (if result then spec.past self.old.last self.old.ahead else self.old) }
    {
        let found = self.sees_keyword(keyword);
        if found {
            self.take();
        }
        found
    }

    /// Goes behind the next token where it is the one that has to be there, and gives where it stands.
    fn step(&mut self, is_there: bool) -> Result<Span, Stop>
        ensures { MatchResult result (λ at. (is_there ≡ true) × (at ≡ spec.span_of self.old.ahead) × (self.new ≡ spec.past self.old.last self.old.ahead)) (λ e. (is_there ≡ false) × (e ≡ Stop.Syntax (length self.old.ahead))) }
    {
        if is_there {
            Ok(self.take())
        } else {
            Err(self.refuse())
        }
    }

    /// Goes behind this mark, which has to be there, and gives where it stands.
    pub(crate) fn expect(&mut self, mark: Mark) -> Result<Span, Stop>
        ensures { MatchResult result (λ at. spec.mark mark self.old ≡ Ok ((tt, at), self.new)) (λ e. spec.mark mark self.old ≡ Err e) }
    {
        let is_there = self.sees(mark);
        self.step(is_there)
    }

    /// Goes behind this keyword, which has to be there, and gives where it stands.
    pub(crate) fn expect_keyword(&mut self, keyword: Keyword) -> Result<Span, Stop>
        ensures { MatchResult result (λ at. spec.keyword keyword self.old ≡ Ok ((tt, at), self.new)) (λ e. spec.keyword keyword self.old ≡ Err e) }
    {
        let is_there = self.sees_keyword(keyword);
        self.step(is_there)
    }

    /// Goes behind the end of a line, which has to be there.
    pub(crate) fn expect_newline(&mut self) -> Result<Span, Stop>
        ensures { MatchResult result (λ at. spec.of_kind is_newline self.old ≡ Ok ((tt, at), self.new)) (λ e. spec.of_kind is_newline self.old ≡ Err e) }
    {
        let is_there = is_newline(self.peek());
        self.step(is_there)
    }

    /// Goes behind the token before deeper lines, which has to be there.
    pub(crate) fn expect_indent(&mut self) -> Result<Span, Stop>
        ensures { MatchResult result (λ at. spec.of_kind is_indent self.old ≡ Ok ((tt, at), self.new)) (λ e. spec.of_kind is_indent self.old ≡ Err e) }
    {
        let is_there = is_indent(self.peek());
        self.step(is_there)
    }

    /// Goes behind the token behind deeper lines, which has to be there.
    pub(crate) fn expect_dedent(&mut self) -> Result<Span, Stop>
        ensures { MatchResult result (λ at. spec.of_kind is_dedent self.old ≡ Ok ((tt, at), self.new)) (λ e. spec.of_kind is_dedent self.old ≡ Err e) }
    {
        let is_there = is_dedent(self.peek());
        self.step(is_there)
    }

    /// Goes behind the token END, which has to be there.
    pub(crate) fn expect_end(&mut self) -> Result<Span, Stop>
        ensures { MatchResult result (λ at. spec.the_end self.old ≡ Ok ((tt, at), self.new)) (λ e. spec.the_end self.old ≡ Err e) }
    {
        let is_there = self.left() > 0 && matches!(self.peek(), TokenKind::End);
        self.step(is_there)
    }
}
