//! The instance tree of a project: what it is, and how it is asked.
//!
//! A loaded program and an entry block stand for a tree of instances, signals, pins and parameters. `specs/Types` and `specs/Members` say
//! what a type has, `specs/Walk` which type, which statements and which assignments there are at a path, each path walked afresh from the
//! root, and `specs/Order` which nodes and occurrences there are and in which order. `specs/TreeFaults` and `specs/PathFaults` say which
//! fault stands. [`Tree`] is what is kept of it; `IsTree` of `specs/Trees` ties it to these definitions, and `specs/Elaborated` says what
//! an entry block gives.
#![tactic(auto)]

mod declared_names;
mod exprs;
mod finding;
mod kinds;
mod label_set;
mod laws;
mod listing;
mod number_set;
mod texts;
mod tree;
mod type_members;
mod type_stmts;

pub use exprs::{first_token, front_of, is_literal, path_front, paths};
pub use kinds::kind;
pub use laws::{
    effective_is_last, first_fault_stands, limits_are_kept, members_agree, no_node_twice,
    nodes_are_members, nothing_is_cut, one_tree, one_tree_fault, statements_are_walked,
    targets_are_found,
};
pub use texts::source_text;
pub use tree::{Effective, Late, Node, NodeKind, Occurrence, Tree};
pub use type_members::{Kind, Member, members};
pub use type_stmts::{StmtAt, statements};
