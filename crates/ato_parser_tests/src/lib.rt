//! Which trees and faults the parser gives, on texts and tokens whose answers were worked out by hand
//! from the grammar.
//!
//! This crate has tests alone, which stand above `ato_parser` so that it is not proved once more together
//! with them. A fault is told by its kind and the token at which it stands. Where tokens are made or
//! changed, each gets a place of its own, so that tokens without bytes are told apart.
#![tactic(auto)]

#[cfg(test)]
mod board;
#[cfg(test)]
mod depth;
#[cfg(test)]
mod edits;
#[cfg(test)]
mod exprs;
#[cfg(test)]
mod faults;
#[cfg(test)]
mod files;
#[cfg(test)]
mod follow;
#[cfg(test)]
mod follow_exprs;
#[cfg(test)]
mod follow_files;
#[cfg(test)]
mod follow_stmts;
#[cfg(test)]
mod kinds;
#[cfg(test)]
mod prefixes;
#[cfg(test)]
mod print_exprs;
#[cfg(test)]
mod print_files;
#[cfg(test)]
mod print_stmts;
#[cfg(test)]
mod runs;
#[cfg(test)]
mod source;
#[cfg(test)]
mod spots;
#[cfg(test)]
mod stmts;
#[cfg(test)]
mod wide;
