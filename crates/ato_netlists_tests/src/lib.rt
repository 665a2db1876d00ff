//! The nets and parts of projects, on sources whose answers were worked out by hand.
//!
//! This crate has tests alone, which stand above `ato_connections` and `ato_netlists` so that those are not proved once more together with
//! them.
#![tactic(auto)]

#[cfg(test)]
mod boards;
#[cfg(test)]
mod projects;
