//! The search for a pick of one slot with one check.
//!
//! A problem of `ato_cert` comes in, and a certificate goes out: a built one with the number of the
//! first good candidate, or a refuted one with a tree that closes every candidate. That it is valid, and
//! `Decides` of specs/Decides.antt, are the contract of `search`.
#![tactic(auto)]

mod refuting;
mod searching;
#[cfg(test)]
mod tests;

pub use searching::search;
