//! Room for what is worked out of the nodes of a table.
ghost use Rattle.std.specs.Prelude.{◌≡◌, [], ◌↔◌, ◌<◌, ◌≤◌, ℕ, length, slice_get, slice_set, slice_index_or, OnOk, OnErr, false};
ghost use Rattle.ato_expr.specs.Scratches.{HasRoom, IsMarked};
ghost use Rattle.ato_expr.specs.Tables.{AreNodes, IsBelow, IsTable};

use crate::ExprTable;
use crate::marking::{end_of, mark_all, mark_below};
use ato_base::NoMemory;
use ato_frac::{Exact, Frac};
use std::alloc::Global;
use std::marker::Model;

/// Numbers of nodes that follow each other.
#[derive(Clone, Copy, Debug, PartialEq, Eq)]
pub struct Stretch {
    /// The first number.
    pub first: u32,
    /// The number after the last.
    pub end: u32,
}

/// Room for what is worked out of the nodes of a table: a mark for each node, and the two ends of what it comes to.
///
/// It is reserved for a table once, and then lent to calls that take no memory. What it holds between them has no meaning. It keeps the
/// allocator that it was made with.
#[derive(Debug, Drop)]
pub struct Scratch {
    marks: Vec<bool>,
    ends: Vec<(Frac, Frac)>,
}

impl Model for Scratch {
    ghost use Rattle.std.specs.Prelude.{◌≡◌, length};
    ghost use Rattle.ato_expr.specs.Scratches.{Notes};

    ghost Value = { Notes };

    ghost view = { λ it. record { marks = it.marks.items; ends = it.ends.items } };

    ghost invariant = { λ it. length it.marks.items ≡ length it.ends.items };
}

impl Scratch {
    /// A scratch with room for no node. It takes no memory.
    pub fn new(alloc: Global) -> Scratch
        ensures marks { result.marks ≡ [] }
        ensures ends { result.ends ≡ [] }
    {
        Scratch {
            marks: Vec::new(alloc),
            ends: Vec::new(alloc),
        }
    }

    /// Makes room for the nodes of a table. The room that was there stays. Where there is no memory the scratch stays as it was.
    pub fn reserve(&mut self, table: &ExprTable) -> Result<(), NoMemory>
        ensures room { OnOk result (HasRoom self.new (length table.now)) }
        ensures more_marks { length self.old.marks ≤ length self.new.marks }
        ensures more_ends { length self.old.ends ≤ length self.new.ends }
        ensures same { OnErr result (self.new ≡ self.old) }
    {
        let count = table.count() as usize;
        let held = self.marks.len();
        if count <= held {
            return Ok(());
        }
        self.marks.resize(count, false)?;
        let zero = Frac::zero();
        if let Err(_) = self.ends.resize(count, (zero, zero)) {
            self.marks.truncate(held);
            return Err(NoMemory);
        }
        Ok(())
    }

    /// Marks the nodes below some roots, and answers in which numbers these lie: a node in this stretch is marked exactly where it is below
    /// the roots, and no other node is below them. The roots have to be nodes of the table, and the scratch reserved for it.
    ///
    /// It goes over no node outside the stretch.
    pub fn mark(&mut self, table: &ExprTable, roots: &[u32]) -> Stretch
        requires roots { AreNodes table.now roots.now }
        requires room { HasRoom self.old (length table.now) }
        ensures marks { (node : ℕ) → IsMarked result self.new.marks node ↔ IsBelow table.now roots.now node }
        ensures first { result.first ≤ result.end }
        ensures end { result.end ≤ length table.now }
        ensures same_marks { length self.new.marks ≡ length self.old.marks }
        ensures same_ends { self.new.ends ≡ self.old.ends }
    {
        let end = end_of(table.count(), roots);
        let marks = self.marks.as_mut_slice();
        let from = mark_all(marks, end, roots);
        let first = mark_below(table, roots, marks, from, end);
        Stretch { first, end }
    }

    /// Whether a node is marked.
    pub fn is_marked(&self, node: u32) -> bool
        requires { node < length self.now.marks }
        ensures { result ≡ slice_index_or self.now.marks node false }
    {
        self.marks[node as usize]
    }

    /// The two ends that were put for a node last.
    pub fn ends_at(&self, node: u32) -> (Frac, Frac)
        requires { node < length self.now.ends }
        ensures { slice_get self.now.ends node ≡ Some result }
    {
        self.ends[node as usize]
    }

    /// Puts the two ends of a node.
    pub fn put(&mut self, node: u32, low: Frac, high: Frac)
        requires { node < length self.old.ends }
        ensures ends { self.new.ends ≡ slice_set self.old.ends node (low, high) }
        ensures marks { self.new.marks ≡ self.old.marks }
    {
        self.ends[node as usize] = (low, high);
    }

    /// The ends of all nodes.
    pub(crate) fn ends(&self) -> &[(Frac, Frac)]
        ensures { result.now ≡ self.now.ends }
    {
        self.ends.as_slice()
    }
}
