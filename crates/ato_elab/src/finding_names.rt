//! The members of instances, by their names.
ghost use Rattle.std.specs.Prelude.{◌≡◌};
ghost use Rattle.ato_elab.specs.Built.{held};
ghost use Rattle.ato_elab.specs.Finding.{node_sort, sort_at, named_in};

use crate::built::Built;
use crate::places::Places;
use ato_base::Name;
use ato_instance_tree::{Node, NodeKind};

/// What a name of an instance is.
#[derive(Clone, Copy)]
pub(crate) enum Sort {
    /// A signal.
    Signal,
    /// An instance.
    Instance,
    /// A parameter.
    Param,
}

/// The sort of a node; pins have none.
fn node_sort(kind: NodeKind) -> Option<Sort>
    ensures { result ≡ node_sort kind }
{
    match kind {
        NodeKind::Module | NodeKind::Component | NodeKind::Interface => Some(Sort::Instance),
        NodeKind::Signal => Some(Sort::Signal),
        NodeKind::Pin => None,
        NodeKind::Param => Some(Sort::Param),
    }
}

/// The node that is held for a name of an instance.
fn held(places: &Places, instance: u32, name: Name) -> Option<u32>
    ensures { result ≡ held places.now instance name.0 }
{
    match places.numbers.get(&(instance, name.0)) {
        Some(number) => Some(*number),
        None => None,
    }
}

/// The sort of the node of a number.
fn sort_at(nodes: &[Node], number: u32) -> Option<Sort>
    ensures { result ≡ sort_at nodes.now number }
{
    match nodes.get(number as usize) {
        Some(node) => node_sort(node.kind),
        None => None,
    }
}

/// The member of an instance under a name: its node, and its sort.
#[tactic(auto, unfolding(crate::specs::Finding::named_in))]
pub(crate) fn named(built: &Built, instance: u32, name: Name) -> Option<(u32, Sort)>
    ensures { result ≡ named_in built.now instance name.0 }
{
    let number = held(&built.places, instance, name)?;
    let sort = sort_at(built.nodes.as_slice(), number)?;
    Some((number, sort))
}
