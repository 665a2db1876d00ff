//! Exact fractions and coins.
//!
//! Whole numbers, the texts of numbers and other exact numbers come in; the exact result of one
//! operation goes out, or a refusal by a stated rule. Nothing is rounded, and no call takes memory.
//! A number means a rational value (`ato_rational`): `value_of` of specs/Fractions.antt is a
//! fraction's, `IsInRange` of specs/Range.antt says which values have a fraction, `CanAdd` and its
//! kin which operations have a result, and `Reads` of specs/Decimals.antt which texts give which
//! fraction. `Exact` and `Divides` are the contract of every type of exact numbers, so that what
//! stands above is proved once for all of them: here the order (`at_most`, `lesser`, `greater`),
//! absolute values and powers, of which specs/Powers.antt says where they are there.
#![tactic(auto)]

mod coin;
mod comparing;
mod decimal;
mod exact;
mod faults;
mod fraction;
mod powers;
#[cfg(test)]
mod tests;

pub use coin::Coin;
pub use comparing::{at_most, greater, lesser};
pub use exact::{Divides, Exact};
pub use faults::{DecimalFault, NumFault};
pub use fraction::{Frac, signed};
pub use powers::{absolute, power};
