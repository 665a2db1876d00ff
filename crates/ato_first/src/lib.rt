//! What belongs to the first form of source files alone: its tokens, and what a source of it says.
//!
//! The bytes of a source come in. `lex` gives its tokens and puts the names that they mention into the
//! table of names: `AreTokens` of specs/FirstTokens.antt says which tokens those are, and `IsRefused`
//! which fault stands where there are none; specs/FirstForm.antt defines the form (docs/LANGUAGE.md)
//! line by line, and specs/PartLines.antt the lines that describe a part. `read_block` gives the block
//! that the tokens spell, `unknown_line` and `empty_line` its first line with a fault, `list_of` its net
//! list (`IsNetList` of specs/FirstNets.antt) and `part_of` the part that it describes
//! (specs/FirstParts.antt, which also says which rows of a catalogue are candidates and which picks are
//! good). The crate goes when source files have more than the first form.
#![tactic(auto)]

mod first_block;
mod first_form;
mod first_lines;
mod first_nets;
mod first_parts;
mod first_points;
mod fronts;
mod lexing;
mod line_faults;
mod lines;
mod names;
mod part_lines;
mod part_writing;
mod pieces;
mod statements;
#[cfg(test)]
mod tests;
mod text_set;
mod writing;

pub use first_block::read_block;
pub use first_form::{Assertion, Block, End, Line, Point};
pub use first_nets::{joining, list_of};
pub use first_parts::{Part, part_of};
pub use lexing::lex;
pub use line_faults::{empty_line, unknown_line};
