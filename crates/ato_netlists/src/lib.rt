//! The parts and the nets of a project, from its tree.
//!
//! [`part_rows`] gives the rows of the parts list before parts are picked, [`netlist`] the net list by the classes of joined nodes. What
//! they are is said by `specs/Parts` and `specs/Nets` of `ato_links`, whose laws say that the nets are the classes of joined pins and
//! that no two parts have one designator.
#![tactic(auto)]

mod comps;
mod designators;
mod naming;
mod nets;
mod parts;
mod paths;
mod pins;
mod rows;
mod strings;

pub use nets::netlist;
pub use rows::part_rows;
