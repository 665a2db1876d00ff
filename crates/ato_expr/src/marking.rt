//! Marking the nodes below others, from the last to the first.
ghost use Rattle.std.specs.Prelude.{◌≡◌, ◌⊎◌, ◌↔◌, ◌<◌, ◌≤◌, ℕ, length, slice_index_or, Contains, true, false};
ghost use Rattle.ato_expr.specs.Scratches.{IsSet};
ghost use Rattle.ato_expr.specs.Tables.{IsBelow, IsTable};

use crate::ExprTable;

/// The least number above all roots, which are below a count.
pub(crate) fn end_of(count: u32, roots: &[u32]) -> u32
    requires { (root : ℕ) → Contains roots.now root → root < count }
    ensures above { (root : ℕ) → Contains roots.now root → root < result }
    ensures end { result ≤ count }
{
    let mut end = 0;
    for root in roots {
        if end <= *root {
            end = *root + 1;
        }
    }
    end
}

/// Unsets the marks from one on and before another.
fn unset(marks: &mut [bool], from: u32, to: u32)
    requires order { from ≤ to }
    requires there { to ≤ length marks.old }
    ensures unset { (k : ℕ) → from ≤ k → k < to → slice_index_or marks.new k false ≡ false }
    ensures kept { (k : ℕ) → (k < from) ⊎ (to ≤ k) → slice_index_or marks.new k false ≡ slice_index_or marks.old k false }
{
    for node in from..to {
        marks[node as usize] = false;
    }
}

/// Lets the marks count from a node on, if they did not, with no mark more; answers from where on they count.
fn reach(marks: &mut [bool], first: u32, node: u32) -> u32
    requires there { first ≤ length marks.old }
    ensures first { result ≤ first }
    ensures node { result ≤ node }
    ensures same { (k : ℕ) → IsSet result marks.new k ↔ IsSet first marks.old k }
{
    if node < first {
        unset(marks, node, first);
        node
    } else {
        first
    }
}

/// Marks one node more; answers from where on the marks count.
fn mark_one(marks: &mut [bool], first: u32, node: u32) -> u32
    requires there { first ≤ length marks.old }
    requires node { node < length marks.old }
    ensures first { result ≤ first }
    ensures marked { (k : ℕ) → IsSet result marks.new k ↔ (IsSet first marks.old k ⊎ (k ≡ node)) }
{
    let first = reach(marks, first, node);
    marks[node as usize] = true;
    first
}

/// Marks more nodes; answers from where on the marks count.
pub(crate) fn mark_all(marks: &mut [bool], from: u32, nodes: &[u32]) -> u32
    requires there { from ≤ length marks.old }
    requires nodes { (k : ℕ) → Contains nodes.now k → k < length marks.old }
    ensures first { result ≤ from }
    ensures marked { (k : ℕ) → IsSet result marks.new k ↔ (IsSet from marks.old k ⊎ Contains nodes.now k) }
{
    let mut first = from;
    for node in nodes {
        first = mark_one(marks, first, *node);
    }
    first
}

/// Marks all nodes below some roots, where the roots alone are marked; answers from where on the marks count.
pub(crate) fn mark_below(
    table: &ExprTable,
    roots: &[u32],
    marks: &mut [bool],
    from: u32,
    end: u32,
) -> u32
    requires table { IsTable table.now }
    requires from { from ≤ end }
    requires end { end ≤ length table.now }
    requires there { length table.now ≤ length marks.old }
    requires above { (k : ℕ) → Contains roots.now k → k < end }
    requires roots { (k : ℕ) → k < end → IsSet from marks.old k ↔ Contains roots.now k }
    ensures first { result ≤ end }
    ensures marked { (k : ℕ) → ((k < end) × IsSet result marks.new k) ↔ IsBelow table.now roots.now k }
{
    let mut first = from;
    let mut node = end;
    while first < node {
        node -= 1;
        if marks[node as usize] {
            let (_, children) = table.entry(node);
            first = mark_all(marks, first, children);
        }
    }
    first
}
