//! What a node comes to at a point.

use ato_frac::Frac;

/// What a node comes to at a point. Where something below it has no value, the first such node in the table's order decides.
#[derive(Clone, Copy, Debug, PartialEq, Eq)]
pub enum Point {
    /// Its exact value.
    Value(Frac),
    /// The first node without a value is a quotient by 0.
    Undefined,
    /// The first node without a value is an operation that is refused, since a number would be out of range.
    Wide,
}
