//! Whole runs of the compiler over files in memory: what it prints, what it puts and how it ends.
//!
//! This crate has tests alone. They use only what `ato_build` gives to everybody, and stand above it so
//! that the top call is not proved once more together with its tests. Files, tray and output are those of
//! `ato_outside` in memory, with failures by number where a test wants one. A test of a whole run belongs
//! here; a test of one crate's call stands in that crate.
#![tactic(auto)]

#[cfg(test)]
mod checks;
#[cfg(test)]
mod failures;
#[cfg(test)]
mod faults;
#[cfg(test)]
mod nets;
#[cfg(test)]
mod parts;
#[cfg(test)]
mod runs;
#[cfg(test)]
mod usage;
