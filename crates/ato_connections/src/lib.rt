//! The classes of the nodes that a project's connections join, or the first fault of its paths and links.
//!
//! [`joined`] goes over the statements of a tree once. It finds the nodes at the ends of connections by the names of instances' members,
//! joins the members of interfaces level by level, and floods the nodes by what is joined. `specs/NodeLinks` says by the numbers of nodes
//! what a statement joins; that this is what the project's connections join is a law.
#![tactic(auto)]

mod ends;
mod given;
mod joining;
mod laws;
mod library;
mod links;
mod members;
mod sides;
mod statements;

pub use joining::joined;
