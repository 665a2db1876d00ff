//! What is found at a corner.

/// What is found of a relation at a corner of its ranges: at a point that takes one end of each range.
#[derive(Clone, Copy, Debug, PartialEq, Eq)]
pub enum Reached {
    /// The relation fails at the corner.
    Fails,
    /// It holds at the corner.
    Nothing,
    /// Over the ranges or at the corner a number would be out of range.
    Wide,
}
