/// Why an operation on exact numbers has no result.
#[derive(Clone, Copy, Debug, PartialEq, Eq)]
pub enum NumFault {
    /// The result, or a step on the way that the operation's rule names, is out of range.
    Wide,
    /// The divisor is 0.
    ByZero,
}

/// Why a text gives no fraction.
#[derive(Clone, Copy, Debug, PartialEq, Eq)]
pub enum DecimalFault {
    /// The text is no number.
    BadText,
    /// The number has too many digits, too large or too small a power of 10, or no fraction.
    Wide,
}
