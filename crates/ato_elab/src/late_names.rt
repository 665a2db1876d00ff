//! The names from the root to an instance.
ghost use Rattle.std.specs.Prelude.{◌≡◌, ◌++◌, ℕ, List, Some, length, map, reverse, slice_get, IfOk};
ghost use Rattle.ato_files.specs.declared.program.SourceFile.{SourceFile};
ghost use Rattle.ato_files.specs.Programs.{NamesDiffer};
ghost use Rattle.ato_instance_tree.specs.Order as order;
ghost use Rattle.ato_instance_tree.specs.Order.{made_at};
ghost use Rattle.ato_instance_tree.specs.TreeFaults as faults;
ghost use Rattle.ato_instance_tree.specs.Trees.{tree_said, spot_said};
ghost use Rattle.ato_elab.specs.Climbing.{above_at, climbed};

use ato_base::{List, Name, NameTable, NoMemory};
use ato_instance_tree::Node;
use std::alloc::Global;

/// What stands above a node.
#[derive(Clone, Copy)]
pub(crate) enum Above {
    /// There is no such node, or its name is not known.
    Nowhere,
    /// Nothing: the node is the root.
    Root,
    /// The node has this name, and stands in the instance of this number.
    Under(Name, u32),
}

/// What stands above a node.
#[tactic(auto, unfolding(crate::specs::Climbing::above_at))]
fn above_at(names: &NameTable, nodes: &[Node], number: u32) -> Above
    ensures { result ≡ above_at names.now nodes.now number }
{
    let Some(node) = nodes.get(number as usize) else {
        return Above::Nowhere;
    };
    match node.parent {
        None => Above::Root,
        Some(parent) => match names.find(node.name.as_str()) {
            Some(name) => Above::Under(name, parent),
            None => Above::Nowhere,
        },
    }
}

/// The names from an instance up to the root.
fn climbed(
    alloc: Global,
    names: &NameTable,
    nodes: &[Node],
    number: u32,
) -> Result<List<Name>, NoMemory>
    ensures { IfOk result (λ found. climbed names.now nodes.now (length nodes.now) number ≡ Some (map (λ n. n.0) found)) }
{
    let mut found = List::new(alloc);
    let mut at = number;
    let mut most = nodes.len();
    while most > 0 {
        most -= 1;
        match above_at(names, nodes, at) {
            Above::Under(name, parent) => {
                found.push(name)?;
                at = parent;
            }
            Above::Root => return Ok(found),
            Above::Nowhere => return Err(NoMemory),
        }
    }
    Err(NoMemory)
}

/// Names in the other order.
fn turned(alloc: Global, found: &[Name]) -> Result<List<Name>, NoMemory>
    ensures { IfOk result (λ names. names ≡ reverse found.now) }
{
    let names: Vec<Name> = found.iter().rev().copied().collect(alloc)?;
    Ok(List::from_vec(names))
}

/// The names from the root to an instance.
pub(crate) fn shown(
    alloc: Global,
    names: &NameTable,
    nodes: &[Node],
    number: u32,
) -> Result<List<Name>, NoMemory>
    ensures { IfOk result (λ found. climbed names.now nodes.now (length nodes.now) number ≡ Some (reverse (map (λ n. n.0) found))) }
{
    let found = climbed(alloc, names, nodes, number)?;
    turned(alloc, found.as_slice())
}

/// The names from the root to an instance of a tree, by the number of its node. It takes as many steps as there are names.
#[tactic(auto, using(crate::proofs::TellLemmas::names_shown))]
pub fn names_to(
    alloc: Global,
    names: &NameTable,
    nodes: &[Node],
    number: u32,
) -> Result<List<Name>, NoMemory>
    ensures { IfOk result (λ found. (files : List SourceFile) (entry : ℕ) (path : List ℕ) → NamesDiffer names.now
        → tree_said nodes.now ≡ map (spot_said files entry names.now) (order.nodes files entry)
        → slice_get (order.nodes files entry) number ≡ Some (made_at path) → found ≡ faults.shown path) }
{
    shown(alloc, names, nodes, number)
}
