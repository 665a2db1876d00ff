//! What the readers of lines hand to the writers of tokens. The names and labels lie in the text of
//! the file.

/// A point that is declared.
#[derive(Clone, Copy, Debug)]
pub(crate) enum PointText<'a> {
    Signal(&'a str),
    /// A pin whose label is a name.
    NamedPin(&'a str),
    /// A pin whose label is a number.
    NumberedPin(&'a [u8]),
}

/// An end of a join.
#[derive(Clone, Copy, Debug)]
pub(crate) enum EndText<'a> {
    Name(&'a str),
    Declared(PointText<'a>),
}

/// What is asserted of an attribute.
#[derive(Clone, Copy, Debug)]
pub(crate) struct AssertionText<'a> {
    pub(crate) name: &'a str,
    pub(crate) low: &'a [u8],
    pub(crate) high: &'a [u8],
}

/// A line of the block.
#[derive(Clone, Copy, Debug)]
pub(crate) enum Statement<'a> {
    Pass,
    Declaration(PointText<'a>),
    Join(EndText<'a>, EndText<'a>),
    /// The text between the quotes.
    Kind(&'a [u8]),
    Attribute(&'a str),
    Assertion(AssertionText<'a>),
}
