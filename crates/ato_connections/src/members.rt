//! The members of instances, by the numbers of nodes.
ghost use Rattle.std.specs.Prelude.{◌≡◌, ◌<◌, ◌==◌, ◌++◌, ℕ, [], ◌∷◌, false, get_or, if◌then◌else◌, length, map, true, IfOk, List, None, OnOk, Some};
ghost use Rattle.std.specs.Option.{option_or};
ghost use Rattle.indexmap.specs.IndexMap.{get_by};
ghost use Rattle.ato_instance_tree.specs.declared.tree.Node.{Node};
ghost use Rattle.ato_instance_tree.specs.Targets.{child};
ghost use Rattle.ato_connections.specs.Members.{held_names, is_key, AreFirst, AreMembers, HoldsMore};
ghost use Rattle.ato_connections.specs.NodeLinks.{names_in};

use ato_base::{List, NoMemory};
use ato_instance_tree::{Node, NodeKind};
use indexmap::IndexMap;
use std::alloc::Global;

/// The members of instances, by the instances' numbers and the members' names or labels.
#[derive(Drop)]
pub(crate) struct Members<'a> {
    /// The nodes of signals, parameters and instances.
    named: IndexMap<(u32, &'a [u8]), u32>,
    /// The nodes of pins.
    pins: IndexMap<(u32, &'a [u8]), u32>,
    /// For each node the names of its members that are no pins.
    names: Vec<List<&'a [u8]>>,
}

/// A number as an u32, if it is not too large.
pub(crate) fn small(number: usize) -> Result<u32, NoMemory>
    ensures { IfOk result (λ same. same ≡ number) }
{
    if number > 0xffff_ffff {
        return Err(NoMemory);
    }
    Ok(number as u32)
}

/// Puts a node in for a text of an instance, where nothing was put in for it before.
fn put_first<'a>(
    nodes: &mut IndexMap<(u32, &'a [u8]), u32>,
    key: (u32, &'a [u8]),
    number: u32,
) -> Result<(), NoMemory>
    ensures { OnOk result ((instance : ℕ) (text : List ℕ) → get_by (is_key instance text) nodes.new
        ≡ option_or (get_by (is_key instance text) nodes.old) (if is_key instance text key.entry then Some number else None)) }
{
    if nodes.contains_key(&key) {
        return Ok(());
    }
    nodes.insert(key, number)?;
    Ok(())
}

/// No names for so many nodes.
fn no_names<'a>(alloc: Global, count: usize) -> Result<Vec<List<&'a [u8]>>, NoMemory>
    ensures count { IfOk result (λ names. length names.items ≡ count) }
    ensures empty { IfOk result (λ names. (instance : ℕ) → get_or names.items instance [] ≡ []) }
{
    let mut names = Vec::new(alloc);
    for _ in 0..count {
        names.push(List::new(alloc))?;
    }
    Ok(names)
}

impl<'a> Members<'a> {
    /// None of so many nodes.
    #[tactic(auto, unfolding(crate::specs::Members::held_name, crate::specs::Members::held_pin))]
    fn new(alloc: Global, count: usize) -> Result<Members<'a>, NoMemory>
        ensures { IfOk result (λ members. AreFirst count [] members) }
    {
        let names = no_names(alloc, count)?;
        Ok(Members {
            named: IndexMap::new(alloc),
            pins: IndexMap::new(alloc),
            names,
        })
    }

    /// Puts the name of a member of an instance behind the others.
    fn put_name(&mut self, instance: u32, text: &'a [u8]) -> Result<(), NoMemory>
        ensures named { OnOk result (self.new.named ≡ self.old.named) }
        ensures pins { OnOk result (self.new.pins ≡ self.old.pins) }
        ensures count { OnOk result (length self.new.names.items ≡ length self.old.names.items) }
        ensures names { OnOk result ((other : ℕ) → other < length self.old.names.items
            → held_names self.new other ≡ held_names self.old other ++ (if other == instance then text.now ∷ [] else [])) }
    {
        match self.names.get_mut(instance as usize) {
            Some(row) => row.push(text),
            None => Ok(()),
        }
    }

    /// Puts in a node that stands in an instance.
    fn put(&mut self, number: u32, instance: u32, node: &'a Node) -> Result<(), NoMemory>
        ensures { OnOk result (node.now.parent ≡ Some instance → HoldsMore self.old number node.now self.new) }
    {
        let text = node.name.as_str().as_bytes();
        match node.kind {
            NodeKind::Pin => put_first(&mut self.pins, (instance, text), number),
            _ => {
                put_first(&mut self.named, (instance, text), number)?;
                self.put_name(instance, text)
            }
        }
    }

    /// Puts in a node, if it stands in an instance.
    fn put_node(&mut self, number: usize, node: &'a Node) -> Result<(), NoMemory>
        ensures { OnOk result (HoldsMore self.old number node.now self.new) }
    {
        match node.parent {
            Some(instance) => self.put(small(number)?, instance, node),
            None => Ok(()),
        }
    }

    /// The members of all instances among these nodes.
    pub(crate) fn of(alloc: Global, nodes: &'a [Node]) -> Result<Members<'a>, NoMemory>
        ensures { IfOk result (λ members. AreMembers nodes.now members) }
    {
        let mut members = Members::new(alloc, nodes.len())?;
        for (number, node) in nodes.iter().enumerate() {
            members.put_node(number, node)?;
        }
        Ok(members)
    }

    /// The node of a signal, parameter or instance in an instance.
    pub(crate) fn named(&self, instance: u32, text: &[u8]) -> Option<u32>
        ensures { (ns : List Node) → AreMembers ns self.now → result ≡ child ns instance false text.now }
    {
        match self.named.get(&(instance, text)) {
            Some(number) => Some(*number),
            None => None,
        }
    }

    /// The node of a pin in an instance.
    pub(crate) fn pin(&self, instance: u32, text: &[u8]) -> Option<u32>
        ensures { (ns : List Node) → AreMembers ns self.now → result ≡ child ns instance true text.now }
    {
        match self.pins.get(&(instance, text)) {
            Some(number) => Some(*number),
            None => None,
        }
    }

    /// The names of the members of an instance that are no pins.
    pub(crate) fn names(&self, instance: u32) -> &[&'a [u8]]
        ensures { (ns : List Node) → AreMembers ns self.now → instance < length ns → map (λ text. text.now) result.now ≡ names_in ns instance }
    {
        let number = instance as usize;
        if number < self.names.len() {
            return self.names[number].as_slice();
        }
        &[]
    }
}
