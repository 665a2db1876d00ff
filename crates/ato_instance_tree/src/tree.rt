use ato_base::{Fault, List, Text};

/// What a node is; an instance is what its type is.
#[derive(Clone, Copy, Debug, PartialEq, Eq)]
pub enum NodeKind {
    /// An instance whose type is a module.
    Module,
    /// An instance whose type is a component.
    Component,
    /// An instance whose type is an interface.
    Interface,
    /// A signal.
    Signal,
    /// A pin.
    Pin,
    /// A parameter.
    Param,
}

/// A node of a tree.
#[derive(Debug, Drop)]
pub struct Node {
    /// What it is.
    pub kind: NodeKind,
    /// Its name, or the label of a pin; the root's is empty.
    pub name: Text,
    /// The number of the instance in which it stands; the root stands in none.
    pub parent: Option<u32>,
    /// The number of an instance's type among the blocks of the program.
    pub block: Option<u32>,
}

/// A statement of an instance's type.
#[derive(Clone, Copy, Debug, PartialEq, Eq)]
pub struct Occurrence {
    /// The number of the instance.
    pub node: u32,
    /// The number of the block in which the statement stands.
    pub block: u32,
    /// The number of its line in the block, from 0.
    pub line: u32,
    /// Its number in the line, from 0.
    pub part: u32,
}

/// The assignment that counts for a name of an instance.
#[derive(Debug, Drop)]
pub struct Effective {
    /// The number of the instance that has the name.
    pub node: u32,
    /// The name.
    pub name: Text,
    /// The number of the occurrence that assigns.
    pub by: u32,
}

/// The first fault of paths, and the number of the occurrence in which it stands.
#[derive(Debug, Drop)]
pub struct Late {
    /// The number of the occurrence.
    pub occurrence: u32,
    /// The fault.
    pub fault: Fault,
}

/// The tree of a project.
#[derive(Debug, Drop)]
pub struct Tree {
    /// The nodes, in tree order: an instance, then its members in the order of their first declarations, each with all below it.
    pub nodes: List<Node>,
    /// The occurrences, in written order: by their instances in tree order, then as the statements stand.
    pub occurrences: List<Occurrence>,
    /// The assignments that count, each once, in no promised order; any where there is a fault of paths.
    pub effective: List<Effective>,
    /// The first fault of paths.
    pub first: Option<Late>,
}
