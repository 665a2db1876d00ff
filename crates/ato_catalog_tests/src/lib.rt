//! Which catalogues and faults `read_catalog` gives, on bytes whose answers were worked out by hand.
//!
//! This crate has tests alone, which stand above `ato_catalog` so that it is not proved once more together
//! with them. A fault is told by its kind, its row and its column.
#![tactic(auto)]

#[cfg(test)]
mod bad_bytes;
#[cfg(test)]
mod cells;
#[cfg(test)]
mod columns;
#[cfg(test)]
mod good;
#[cfg(test)]
mod places;
