//! How many nodes a certificate has.
ghost use Rattle.std.specs.Prelude.{◌≡◌, ◌-◌, ◌^◌, min, length};
ghost use Rattle.ato_cert.specs.Nodes.{tree_nodes};
ghost use Rattle.ato_cert.specs.Nodes as spec;

use crate::{Cert, PickTree, Proof};

/// The lines of a tree, or the greatest number where there are more.
fn tree_nodes(tree: &PickTree) -> u32
    ensures { result ≡ min (spec.tree_nodes tree.now) (2 ^ 32 - 1) }
{
    match tree {
        PickTree::Empty(_) => 1,
        PickTree::ByRow { low, high, .. } => tree_nodes(low.get())
            .saturating_add(tree_nodes(high.get()))
            .saturating_add(1),
        PickTree::Fails { .. } => 1,
    }
}

/// The nodes of a certificate: its lines after the third but for `pick`, `check` and `end`. A
/// certificate with more than 2^32 - 1 nodes, which no steps allow, counts as one with these.
pub fn nodes(cert: &Cert) -> u32
    ensures { result ≡ min (spec.nodes cert.now.proof) (2 ^ 32 - 1) }
{
    match &cert.proof {
        Proof::Built { boxes, .. } => boxes.len().min(u32::MAX as usize) as u32,
        Proof::Tree { tree, .. } => tree_nodes(tree),
    }
}
