//! Units of the SI, and quantities made of one or two parts.
//!
//! The text of a unit, of a quantity word or of a literal comes in, or the parts of a literal; a
//! dimension and exact values in base units go out, or the first fault. `unit_of` of specs/Units.antt
//! says what each text of a unit means, and `one_reading` is the law that no text means two things.
//! `Gives` of specs/Quantities.antt is the contract of `combine`: the rules of a literal in the order of
//! their faults, and `one_quantity` is the law that they have one answer at most. `IsLiteral` of
//! specs/Literals.antt says by tokens and grammar which texts are literals, and `LiteralGives` of
//! specs/Spellings.antt what these give: the contract of `read_quantity`. By the laws `one_literal` and
//! `one_answer` a text has one reading and one answer at most. No call takes memory.
#![tactic(auto)]

mod dims;
mod ends;
mod known;
mod laws;
#[cfg(test)]
mod literal_tests;
mod literals;
mod named_units;
mod numbers;
mod part_units;
mod quantities;
mod table;
#[cfg(test)]
mod tests;
mod tokens;
mod units;

pub use dims::Dim;
pub use laws::{one_answer, one_literal, one_quantity, one_reading};
pub use literals::read_quantity;
pub use quantities::{Form, Part, Quantity, QuantityFault, combine};
pub use table::UnitTable;
pub use tokens::{before, past_number, past_word};
pub use units::{Unit, UnknownUnit, read_dim, read_unit};
