//! Expressions as a table of operations, and their values at a point.
//!
//! Operations come in one by one, each over nodes that are there; the exact value of a node at a point goes
//! out, or why there is none. What a node means is the tree of operations below it: `HasValue` of
//! specs/Values.antt says which rational value it has at a point, and that a quotient by 0 has none.
//! `ComesTo` of specs/AtPoint.antt says what it comes to in fractions, where an operation may be refused: the first node in
//! the table's order decides. Both are labels of nodes (specs/Labels.antt), as whatever else is worked out node by node.
#![tactic(auto)]

mod evaluation;
mod laws;
mod marking;
mod operations;
mod ops;
mod point;
mod scratch;
mod table;
#[cfg(test)]
mod tests;

pub use evaluation::value_at;
pub use laws::{
    holds_with_values, one_point, one_value, points_are_right, values_all_the_way_down,
};
pub use ops::{Op, Relation};
pub use point::Point;
pub use scratch::{Scratch, Stretch};
pub use table::ExprTable;
