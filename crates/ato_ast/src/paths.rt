ghost use Rattle.std.specs.Prelude.{◌≡◌};
ghost use Rattle.ato_ast.specs.Places.{label_at, point_at};

use crate::{Named, Number, Quoted};
use ato_base::{List, Span, TokenKind};

/// The label of a pin: what is written behind `pin`.
#[derive(Clone, Copy, Debug, PartialEq, Eq)]
pub enum Label {
    /// A name.
    Name(Named),
    /// A whole number, and where it stands.
    Number(Number, Span),
    /// A string.
    Text(Quoted),
}

impl Label {
    /// Where the label stands.
    pub fn at(&self) -> Span
        ensures { result ≡ label_at self.now }
    {
        match self {
            Label::Name(name) => name.at,
            Label::Number(_, at) => *at,
            Label::Text(text) => text.at,
        }
    }
}

/// A point that a statement declares.
#[derive(Clone, Copy, Debug, PartialEq, Eq)]
pub enum Point {
    /// `signal NAME`.
    Signal(Named, Span),
    /// `pin LABEL`.
    Pin(Label, Span),
}

impl Point {
    /// The point from its keyword on.
    pub fn at(&self) -> Span
        ensures { result ≡ point_at self.now }
    {
        match self {
            Point::Signal(_, at) | Point::Pin(_, at) => *at,
        }
    }
}

/// Names with points between, from an instance down; at the end there may be the number of a pin.
#[derive(Debug, Drop)]
pub struct Path {
    /// The names, at least one.
    pub steps: List<Named>,
    /// The kind of the number's token.
    pub pin: Option<TokenKind>,
    /// The whole path.
    pub at: Span,
}
