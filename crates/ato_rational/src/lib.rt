//! Rational values and their laws.
//!
//! A value is a whole numerator over a whole denominator above 0, of any size, and two values are
//! equal where their cross products are (specs/Rational.antt). No number goes in or out here: the
//! crate has the definitions that contracts of exact numbers cite, and the laws that proofs about
//! them use. `IsOrderedField` of specs/OrderedField.antt is the contract of the laws as a whole;
//! proofs/ has each by itself, what holds the results of operations on ranges (Ends, Products,
//! Quotients, QuotientSets, Powers, Slopes), and two normalisers that prove equations and orders by
//! multiplying out, of whole numbers (Ring) and of rational values (RationalRing).
#![tactic(auto)]

mod laws;

pub use laws::ordered_field;
