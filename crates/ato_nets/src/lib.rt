//! The classes of joined points.
//!
//! Points by their numbers and the joins between them come in, and the least number of a point joined
//! with each goes out: `AreClassNumbers` of specs/ClassNumbers.antt is the contract of
//! [`class_numbers`]. From such numbers [`groups_of`] makes the classes themselves. What the distinct
//! texts of a list are is defined here too.
#![tactic(auto)]

mod classes;
mod groups;

pub use classes::class_numbers;
pub use groups::groups_of;
