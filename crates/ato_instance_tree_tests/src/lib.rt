//! What types have, and what expressions name, on sources whose answers were worked out by hand.
//!
//! This crate has tests alone, which stand above `ato_instance_tree` so that it is not proved once more together with them. What a type has is
//! printed in one line: what it is (M, C, I), its members in order (s, v, or i with the name of the type behind a name; a stroke before the
//! label of a pin), and its statements, each with its block, line and place in the line. The library's blocks have the numbers 0 to 9.
#![tactic(auto)]

#[cfg(test)]
mod expressions;
#[cfg(test)]
mod projects;
#[cfg(test)]
mod trees;
#[cfg(test)]
mod types;
