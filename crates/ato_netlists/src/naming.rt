//! The names of nets.
ghost use Rattle.std.specs.Prelude.{◌≡◌, ◌<◌, ◌≤◌, All, IfOk, IfSome, length};
ghost use Rattle.ato_netlists.specs.Signals.{depth_below, depths_of, is_signal, shallower_of, AreSignals};

use ato_base::NoMemory;
use ato_instance_tree::{Node, NodeKind};
use std::alloc::Global;

/// How many names stand between a node and the root, by those of the nodes before it.
fn depth_below(depths: &[usize], parent: Option<u32>) -> usize
    requires { All (λ depth. depth < length depths.now) depths.now }
    ensures value { result ≡ depth_below depths.now parent }
    ensures within { result ≤ length depths.now }
{
    match parent {
        Some(parent) => match depths.get(parent as usize) {
            Some(depth) => *depth + 1,
            None => 0,
        },
        None => 0,
    }
}

/// How many names stand between each node and the root.
fn depths(alloc: Global, nodes: &[Node]) -> Result<Vec<usize>, NoMemory>
    ensures { IfOk result (λ depths. depths.items ≡ depths_of nodes.now) }
{
    let mut depths: Vec<usize> = Vec::new(alloc);
    for node in nodes {
        let depth = depth_below(&depths, node.parent);
        depths.push(depth)?;
    }
    Ok(depths)
}

/// Whether a node is a signal.
fn is_signal(node: &Node) -> bool
    ensures { result ≡ is_signal node.now.kind }
{
    matches!(node.kind, NodeKind::Signal)
}

/// For each class, by its number, the signal with the fewest names, the first one of several.
pub(crate) fn signals(
    alloc: Global,
    nodes: &[Node],
    of: &[u32],
) -> Result<Vec<Option<usize>>, NoMemory>
    requires size { length of.now ≡ length nodes.now }
    requires classes { All (λ class. class < length of.now) of.now }
    ensures { IfOk result (λ signals. AreSignals nodes.now of.now signals.items) }
{
    let depths = depths(alloc, nodes)?;
    let mut found: Vec<Option<usize>> = vec![in alloc; None; nodes.len()]?;
    for (number, node) in nodes.iter().enumerate() {
        if is_signal(node) {
            let class = of[number] as usize;
            found[class] = shallower(&depths, found[class], number);
        }
    }
    Ok(found)
}

/// The one of two signals with fewer names, the first where they have as many.
fn shallower(depths: &[usize], one: Option<usize>, other: usize) -> Option<usize>
    requires one { IfSome one (λ signal. signal < length depths.now) }
    requires other { other < length depths.now }
    ensures { result ≡ shallower_of depths.now one other }
{
    match one {
        Some(signal) => {
            if depths[other] < depths[signal] {
                Some(other)
            } else {
                Some(signal)
            }
        }
        None => Some(other),
    }
}
