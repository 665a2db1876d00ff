//! The trees of source files, as plain data, and how a tree is written out as the kinds of tokens.
//!
//! Each head, statement, point, value, expression, path, name, label and string, and each part of a
//! literal, has the place of its tokens. A tree is what a definition compares: its lists are `List`s, and
//! only expressions, which lead back to themselves, stand over `Items` and `Boxed`. The types hold more
//! than the language has, such as a path without a name; which trees are those of files is said where
//! tokens are read. `flat` gives the kinds of a tree's
//! tokens; specs/FileKinds.antt says which.
#![tactic(auto)]

mod blocks;
mod exprs;
mod flat_exprs;
mod flat_file;
mod flat_stmts;
mod names;
mod paths;
mod stmts;
#[cfg(test)]
mod tests;

pub use blocks::{Block, BlockKind, File, Head, Item, Line};
pub use exprs::{Choice, Expr, Literal, Part, Scale, Sign, Unit};
pub use flat_file::flat;
pub use names::{Named, Number, Quoted};
pub use paths::{Label, Path, Point};
pub use stmts::{Compare, Comparison, End, Stmt, Value};
