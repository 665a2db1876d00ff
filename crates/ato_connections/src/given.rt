//! What is known of a tree when its connections are looked at.
use crate::library::Library;
use crate::members::Members;
use ato_files::Program;
use ato_instance_tree::Node;
use std::alloc::Global;

/// What is known of a tree when its connections are looked at.
#[derive(Clone, Copy)]
pub(crate) struct Given<'a, 'n> {
    pub(crate) alloc: Global,
    /// The program.
    pub(crate) program: &'a Program,
    /// The nodes of the tree.
    pub(crate) nodes: &'n [Node],
    /// The members of its instances.
    pub(crate) members: &'a Members<'n>,
    /// The type whose instances stand for their signals.
    pub(crate) library: Library,
}
