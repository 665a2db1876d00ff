use ato_base::{Name, Span};

/// A name and where it stands.
#[derive(Clone, Copy, Debug, PartialEq, Eq)]
pub struct Named {
    /// Its number in the table of names.
    pub name: Name,
    /// Where it stands.
    pub at: Span,
}

/// A number, as the kind of its token has it.
#[derive(Clone, Copy, Debug, PartialEq, Eq)]
pub struct Number {
    /// Whether it has neither point nor exponent.
    pub whole: bool,
    /// The value of a whole number up to 65,535.
    pub small: Option<u16>,
    /// Where it stands, as its token's kind has it.
    pub at: Span,
}

/// A string.
#[derive(Clone, Copy, Debug, PartialEq, Eq)]
pub struct Quoted {
    /// What stands between the quotes.
    pub contents: Span,
    /// The string with its quotes.
    pub at: Span,
}
