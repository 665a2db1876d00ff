//! Which tree the tokens of a source file have, or the first token that does not fit.
//!
//! `IsTree` of specs/Faults.antt says which tree tokens spell, and `IsFault` which fault they have. Both stand on the grammar: its
//! productions are in specs/Expressions.antt, Statements.antt and Files.antt, put together of what specs/Pieces.antt defines. The laws about
//! these definitions are contracts of functions without a body. The code reads from left to right, with one token of lookahead
//! (specs/Input.antt, Reading.antt, FileReading.antt); that this gives the tree or the fault of the grammar is proved.
#![tactic(auto)]

mod blocks;
mod cursor;
mod exprs;
mod files;
mod heads;
mod kinds;
mod laws;
mod lines;
mod literals;
mod names;
mod numbers;
mod parsing;
mod paths;
mod points;
mod stmts;
mod stop;
mod values;

pub use laws::{
    all_are_open, deeper_is_more, fronts_begin, fronts_go_on, fronts_have_room, has_one,
    never_both, one_fault, one_tree, trees_are_their_tokens,
};
pub use parsing::{ends_once, parse};
