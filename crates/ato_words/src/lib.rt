//! The words of the command line as a task.
//!
//! Words come in, and the task that they are goes out, or none: `IsJob` and `IsNoJob` of
//! specs/Words.antt are the contract of [`job`]. Names of files that may be read or put are those of
//! specs/PlainNames.antt, which [`is_plain`] tests.
#![tactic(auto)]

mod builds;
mod checks;
mod entries;
mod plain_names;
#[cfg(test)]
mod tests;
mod word_line;
mod words;

pub use plain_names::is_plain;
pub use words::{Build, Check, Task, job};
