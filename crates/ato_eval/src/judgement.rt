//! What is found of a relation over ranges.

/// What is found of a relation over ranges of its variables.
#[derive(Clone, Copy, Debug, PartialEq, Eq)]
pub enum Judgement {
    /// It holds at every point of the ranges.
    True,
    /// It fails at every point of the ranges.
    False,
    /// The intervals of its sides show neither, or a divisor may be 0.
    Unknown,
    /// The first node without an interval is an operation on ends that is refused, since a number would
    /// be out of range.
    Wide,
}
