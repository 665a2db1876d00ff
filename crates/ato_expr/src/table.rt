//! Tables of operations, children before parents.
ghost use Rattle.std.specs.Prelude.{◌≡◌, [], ◌∷◌, ◌++◌, ◌+◌, ◌<◌, ◌≤◌, ◌^◌, ◌↔◌, ℕ, length, option_map, slice_get, slice_range, Contains, Some, IsTrue, IfOk, OnOk, OnErr};
ghost use Rattle.ato_expr.specs.Tables.{AreNodes, AreVariablesBelow, CanPush, Fits, IsTable};

use crate::Op;
use ato_base::NoMemory;
use std::alloc::Global;
use std::marker::Model;

/// An operation, and where its children stand in the list of all children.
#[derive(Clone, Copy, Debug)]
struct Node {
    op: Op,
    first: usize,
    end: usize,
}

/// Operations with their children, children before parents. Nodes are numbered from 0 in the order in which they were put in.
///
/// Contracts see it as the list of the operations with the numbers of their children (`Entry` of specs/Tables.antt), and know that each
/// operation fits its children and that these stand before it (`IsTable`). It keeps the allocator that it was made with.
#[derive(Debug, Drop)]
pub struct ExprTable {
    nodes: Vec<Node>,
    children: Vec<u32>,
}

impl Model for ExprTable {
    ghost use Rattle.std.specs.Prelude.{List};
    ghost use Rattle.ato_expr.specs.Tables.{Entry};
    ghost use Rattle.ato_expr.specs.Storage.{entries, IsStored};

    ghost Value = { List Entry };

    ghost view = { λ it. entries it.children.items it.nodes.items };

    ghost invariant = { λ it. IsStored it.children.items it.nodes.items };
}

/// The node of a number, if there is one.
fn node_at(nodes: &[Node], number: u32) -> Option<Node>
    ensures { result ≡ slice_get nodes.now number }
{
    nodes.get(number as usize).copied()
}

/// The children from one on and before another.
fn range(children: &[u32], first: usize, end: usize) -> &[u32]
    requires order { first ≤ end }
    requires end { end ≤ length children.now }
    ensures { result.now ≡ slice_range children.now first end }
{
    &children[first..end]
}

/// Whether all numbers are below a count.
fn are_below(numbers: &[u32], count: u32) -> bool
    ensures { IsTrue result ↔ ((n : ℕ) → Contains numbers.now n → n < count) }
{
    for number in numbers {
        if count <= *number {
            return false;
        }
    }
    true
}

impl ExprTable {
    /// A table without nodes. It takes no memory.
    pub fn new(alloc: Global) -> ExprTable
        ensures { result ≡ [] }
    {
        ExprTable {
            nodes: Vec::new(alloc),
            children: Vec::new(alloc),
        }
    }

    /// Puts an operation over nodes of the table at the end, and answers its number, which is the count before. Where there is no memory
    /// the table stays as it was. So many children have to fit the operation, the exponent of a power has to be from 1 to 16, and the
    /// table must have fewer than 2^32 - 1 nodes.
    pub fn push(&mut self, op: Op, children: &[u32]) -> Result<u32, NoMemory>
        requires nodes { AreNodes self.old children.now }
        requires fits { Fits op (length children.now) }
        requires room { length self.old + 1 < 2 ^ 32 }
        ensures number { IfOk result (λ node. node ≡ length self.old) }
        ensures table { OnOk result (self.new ≡ self.old ++ record { op = op; children = children.now } ∷ []) }
        ensures same { OnErr result (self.new ≡ self.old) }
    {
        let number = self.nodes.len();
        let first = self.children.len();
        self.children.extend_from_slice(children)?;
        let end = self.children.len();
        if let Err(_) = self.nodes.push(Node { op, first, end }) {
            self.children.truncate(first);
            return Err(NoMemory);
        }
        Ok(number as u32)
    }

    /// How many nodes there are.
    pub fn count(&self) -> u32
        ensures count { result ≡ length self.now }
        ensures table { IsTable self.now }
    {
        self.nodes.len() as u32
    }

    /// Whether an operation over nodes can be put in.
    pub fn takes(&self, op: &Op, children: &[u32]) -> bool
        ensures { IsTrue result ↔ CanPush self.now op.now children.now }
    {
        let count = self.count();
        if count == u32::MAX {
            return false;
        }
        if !op.fits(children.len()) {
            return false;
        }
        are_below(children, count)
    }

    /// The least number above the numbers of all variables.
    pub fn variables(&self) -> usize
        ensures above { AreVariablesBelow self.now result }
        ensures least { (number : ℕ) → AreVariablesBelow self.now number → result ≤ number }
    {
        let mut above = 0;
        for node in 0..self.count() {
            above = self.entry(node).0.past(above);
        }
        above
    }

    /// The operation of a node. None exactly where the table has no such node.
    pub fn op(&self, node: u32) -> Option<Op>
        ensures op { result ≡ option_map (λ entry. entry.op) (slice_get self.now node) }
        ensures table { IsTable self.now }
    {
        match node_at(&self.nodes, node) {
            Some(found) => Some(found.op),
            None => None,
        }
    }

    /// The numbers of a node's children, in their order. None exactly where the table has no such node.
    pub fn children(&self, node: u32) -> Option<&[u32]>
        ensures children { option_map (λ children. children.now) result ≡ option_map (λ entry. entry.children) (slice_get self.now node) }
        ensures table { IsTable self.now }
    {
        match node_at(&self.nodes, node) {
            Some(found) => Some(range(&self.children, found.first, found.end)),
            None => None,
        }
    }

    /// The operation of a node of the table, and the numbers of its children.
    pub fn entry(&self, node: u32) -> (Op, &[u32])
        requires { node < length self.now }
        ensures entry { slice_get self.now node ≡ Some (record { op = result.0; children = result.1.now }) }
        ensures table { IsTable self.now }
    {
        let found = self.nodes[node as usize];
        (found.op, range(&self.children, found.first, found.end))
    }

    /// An equal table, with the same allocator.
    pub fn copy(&self) -> Result<ExprTable, NoMemory>
        ensures { IfOk result (λ copy. copy ≡ self.now) }
    {
        let alloc = *self.nodes.allocator();
        Ok(ExprTable {
            nodes: Vec::from_slice(alloc, self.nodes.as_slice())?,
            children: Vec::from_slice(alloc, self.children.as_slice())?,
        })
    }
}
