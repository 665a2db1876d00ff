//! The texts of a net list and of a parts list.
//!
//! A net list comes in and its text goes out: `list_text` of specs/Netlists.antt is the contract of
//! [`net_text`]. Rows of parts come in and their text goes out: `parts_list` of specs/PartsLists.antt
//! is the contract of [`parts_text`].
#![tactic(auto)]

mod laws;
mod netlists;
mod parts_lists;
#[cfg(test)]
mod tests;

pub use laws::{lines_are_csv, one_list_of_parts, parts_read_back};
pub use netlists::net_text;
pub use parts_lists::parts_text;
