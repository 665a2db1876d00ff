//! The first form of a source file: nothing, or one component with its lines.

use ato_base::{List, Text};

/// A point of the block. A signal and a pin of the same text are two points.
#[derive(Debug, Drop)]
pub enum Point {
    /// A signal, with its name.
    Signal(Text),
    /// A pin, with its label.
    Pin(Text),
}

/// An end of a join.
#[derive(Debug, Drop)]
pub enum End {
    /// A signal that some line of the block declares, by its name.
    Name(Text),
    /// A point that is declared here.
    Declared(Point),
}

/// What is asserted of an attribute: `assert NAME within LOW to HIGH`.
#[derive(Debug, Drop)]
pub struct Assertion {
    /// The name behind `assert`.
    pub name: Text,
    /// The digits before `to`, as they are written.
    pub low: Text,
    /// The digits behind `to`, as they are written.
    pub high: Text,
}

/// A line of the block. Those of the last three kinds describe its part: all three stand in a block, or
/// none of them.
#[derive(Debug, Drop)]
pub enum Line {
    /// It does nothing.
    Pass,
    /// It declares a point.
    Declaration(Point),
    /// It joins its two ends, and declares those that are written as declarations.
    Join(End, End),
    /// It states the kind of the part: `kind = "TEXT"`, with the text between the quotes.
    Kind(Text),
    /// It declares an attribute of the part, by its name: `NAME: dimensionless`.
    Attribute(Text),
    /// It asserts between which values an attribute lies.
    Assertion(Assertion),
}

/// The one block of a file: its name and its lines.
#[derive(Debug, Drop)]
pub struct Block {
    /// The name behind `component`.
    pub name: Text,
    /// The lines below it, of which a whole file has at least one.
    pub lines: List<Line>,
}
