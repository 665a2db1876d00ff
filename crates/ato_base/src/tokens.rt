use crate::{Keyword, Mark, Name, Span};

/// What a token is.
#[derive(Clone, Copy, Debug, PartialEq, Eq)]
pub enum TokenKind {
    /// A name, by its number in the table.
    Name(Name),
    /// A number, which is `whole` where it has neither point nor exponent. `small` is the value of a
    /// whole number up to 65,535. `at` is where the number stands.
    Number {
        whole: bool,
        small: Option<u16>,
        at: Span,
    },
    /// A string, with the place of what stands between its quotes.
    Str(Span),
    /// A keyword.
    Keyword(Keyword),
    /// A mark.
    Mark(Mark),
    /// The end of a logical line.
    Newline,
    /// A line is deeper than the one before it.
    Indent,
    /// A line is less deep than the one before it, once for each level.
    Dedent,
    /// The end of the file.
    End,
}

/// A token and where it stands.
#[derive(Clone, Copy, Debug, PartialEq, Eq)]
pub struct Token {
    /// What it is.
    pub kind: TokenKind,
    /// Where it stands in its file.
    pub at: Span,
}
