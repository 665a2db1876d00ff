/// Why an operation on intervals has no answer.
#[derive(Clone, Copy, Debug, PartialEq, Eq)]
pub enum RangeFault {
    /// The result of an operation on ends is not a number of the type.
    Wide,
    /// The divisor holds 0.
    HoldsZero,
}
