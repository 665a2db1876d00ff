//! Intervals and sets of intervals, over every type of exact numbers.
//!
//! Closed intervals with exact ends come in; the interval of all results of an operation goes out, or
//! a refusal by a stated rule, and sets of values that are made of intervals are joined, met and
//! compared. An interval stands for all rational values between its ends (`Holds` of
//! specs/Ends.antt), also where the type of its ends has only whole numbers. The contract of an
//! operation is that it holds every result of values of its operands and that each of its ends is
//! one (`HoldsResults` and `IsResult` of specs/Results.antt); that of a set is which values are in
//! it (`IsIn` of specs/Sets.antt), with parts that rise and do not touch (`AreRising`).
#![tactic(auto)]

mod faults;
mod interval;
mod laws;
mod set;
#[cfg(test)]
mod tests;

pub use faults::RangeFault;
pub use interval::Interval;
pub use laws::{ends_at_corners, inside_one_part, operations_on_points};
pub use set::IntervalSet;
