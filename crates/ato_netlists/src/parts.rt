//! The parts of a tree.
ghost use Rattle.std.specs.Prelude.{◌≡◌, ◌<◌, ◌||◌, ◌++◌, nat_eq, ℕ, length, option_to_list, IfOk, OnOk};
ghost use Rattle.std.specs.List.{list_any};
ghost use Rattle.ato_files.specs.declared.program.Program.{Program};
ghost use Rattle.ato_instance_tree.specs.Trees as trees;
ghost use Rattle.ato_elab.specs.Late.{component_at, kind_is_component};
ghost use Rattle.ato_netlists.specs.Known.{IsSound};
ghost use Rattle.ato_netlists.specs.Parts.{AreParts, AreStrings};
ghost use Rattle.ato_netlists.specs.Pinned.{holder_of, is_pin_in, is_marked, slot_in, part_at, parts_below};

use crate::strings::Strings;
use ato_base::{List, NoMemory};
use ato_instance_tree::{Node, NodeKind, Tree};
use std::alloc::Global;

/// A component that has a pin, or is to be picked from the catalogue.
#[derive(Clone, Copy, Debug, PartialEq, Eq)]
pub(crate) struct Part {
    /// The number of its node.
    pub(crate) node: u32,
    /// Whether it is to be picked.
    pub(crate) slot: bool,
}

/// Whether a kind is that of pins.
fn is_pin(kind: NodeKind) -> bool
    ensures { result ≡ trees.is_pin kind }
{
    match kind {
        NodeKind::Pin => true,
        _ => false,
    }
}

/// The instance of a pin.
fn holder_of(node: &Node) -> Option<u32>
    ensures { result ≡ holder_of node.now }
{
    if is_pin(node.kind) { node.parent } else { None }
}

/// Marks the node of a number.
fn mark(marks: &mut Vec<bool>, number: u32)
    ensures length { length marks.new.items ≡ length marks.old.items }
    ensures marks { (q : ℕ) → q < length marks.old.items → is_marked marks.new.items q ≡ (nat_eq q number || is_marked marks.old.items q) }
{
    if let Some(marked) = marks.get_mut(number as usize) {
        *marked = true;
    }
}

/// For each node whether it has a pin.
fn with_pins(alloc: Global, nodes: &[Node]) -> Result<Vec<bool>, NoMemory>
    ensures { IfOk result (λ found. (q : ℕ) → q < length nodes.now → is_marked found.items q ≡ list_any (is_pin_in q) nodes.now) }
{
    let mut found = vec![in alloc; false; nodes.len()]?;
    for node in nodes {
        if let Some(instance) = holder_of(node) {
            mark(&mut found, instance);
        }
    }
    Ok(found)
}

/// Whether a kind is that of components.
fn is_component(kind: NodeKind) -> bool
    ensures { result ≡ kind_is_component kind }
{
    match kind {
        NodeKind::Component => true,
        _ => false,
    }
}

/// Whether the node of a number is a component.
fn component_at(nodes: &[Node], number: u32) -> bool
    ensures { result ≡ component_at nodes.now number }
{
    match nodes.get(number as usize) {
        Some(node) => is_component(node.kind),
        None => false,
    }
}

/// Whether the node of a number is marked.
fn is_marked(marks: &[bool], number: u32) -> bool
    ensures { result ≡ is_marked marks.now number }
{
    match marks.get(number as usize) {
        Some(marked) => *marked,
        None => false,
    }
}

/// Whether a string is held for `kind` of the instance of a number.
fn slot_in(strings: &Strings<'_>, number: u32) -> bool
    ensures { result ≡ slot_in strings.now number }
{
    strings.get(number, "kind").is_some()
}

/// What the node of a number is as a part, if it is one.
#[tactic(auto, unfolding(crate::specs::Pinned::part_at))]
fn part_at(nodes: &[Node], pins: &[bool], strings: &Strings<'_>, number: u32) -> Option<Part>
    ensures { result ≡ part_at nodes.now pins.now strings.now number }
{
    if !component_at(nodes, number) {
        return None;
    }
    let slot = slot_in(strings, number);
    if slot || is_marked(pins, number) {
        Some(Part { node: number, slot })
    } else {
        None
    }
}

/// Puts a part, if there is one, behind others.
fn push_part(found: &mut List<Part>, part: Option<Part>) -> Result<(), NoMemory>
    ensures { OnOk result (found.new ≡ found.old ++ option_to_list part) }
{
    match part {
        Some(part) => found.push(part),
        None => Ok(()),
    }
}

/// The parts of a tree, in tree order.
pub(crate) fn parts(
    alloc: Global,
    tree: &Tree,
    strings: &Strings<'_>,
) -> Result<List<Part>, NoMemory>
    ensures { IfOk result (λ parts. (program : Program) (entry : ℕ) → IsSound program tree.now entry
        → AreStrings program entry strings.now → AreParts program entry parts) }
{
    let nodes = tree.nodes.as_slice();
    let pins = with_pins(alloc, nodes)?;
    let mut found = List::new(alloc);
    for number in 0..nodes.len() {
        let part = part_at(nodes, &pins, strings, small(number)?);
        push_part(&mut found, part)?;
    }
    Ok(found)
}

/// A number as an u32, if it is not too large.
pub(crate) fn small(number: usize) -> Result<u32, NoMemory>
    ensures { IfOk result (λ same. same ≡ number) }
{
    if number > 0xffff_ffff {
        return Err(NoMemory);
    }
    Ok(number as u32)
}
