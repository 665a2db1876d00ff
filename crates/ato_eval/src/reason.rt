//! Why a node has no interval.

/// Why an operation on intervals gives none.
#[derive(Clone, Copy, Debug, PartialEq, Eq)]
pub(crate) enum Reason {
    /// An operation on ends is refused.
    TooWide,
    /// The divisor has the value 0 and no other.
    ByZero,
    /// The divisor has the value 0 and others.
    ZeroInside,
}
