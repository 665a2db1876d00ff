use crate::built::Built;
use crate::marks::Marks;
use crate::ways::Ways;
use ato_base::{List, Name};
use ato_files::{Meanings, Program};
use ato_instance_tree::Member;
use std::alloc::Global;

/// How many nodes and occurrences there are, or may be.
#[derive(Clone, Copy, Debug, PartialEq, Eq)]
pub(crate) struct Counts {
    /// The nodes.
    pub(crate) nodes: usize,
    /// The occurrences.
    pub(crate) occurrences: usize,
}

/// An instance whose members are being put.
#[derive(Drop)]
pub(crate) struct Frame<'a> {
    /// Its number.
    pub(crate) number: u32,
    /// Its name; the root has none.
    pub(crate) name: Option<Name>,
    /// The number of its type.
    pub(crate) block: u32,
    /// The members of its type.
    pub(crate) members: List<Member<'a>>,
    /// How many of them are put.
    pub(crate) next: usize,
    /// What its type makes and replaces.
    pub(crate) ways: Ways<'a>,
}

/// What a tree is built from.
#[derive(Clone, Copy)]
pub(crate) struct Given<'a> {
    pub(crate) alloc: Global,
    /// The program.
    pub(crate) program: &'a Program,
    /// What its names mean.
    pub(crate) meanings: &'a Meanings,
    /// How many nodes and occurrences there may be.
    pub(crate) most: Counts,
}

/// A tree that is being built.
#[derive(Drop)]
pub(crate) struct Growth {
    /// What is built.
    pub(crate) built: Built,
    /// The types of the open instances.
    pub(crate) marks: Marks,
    /// How many nodes and occurrences there are, with those of the open instances that are still to be put.
    pub(crate) counts: Counts,
}
