ghost use Rattle.std.specs.Prelude.{◌≡◌, ℕ, [], None, OnOk, Option};
ghost use Rattle.ato_elab.specs.Built.{held};
ghost use Rattle.ato_elab.specs.Placing.{AreHeld, HoldsMore};

use ato_base::NoMemory;
use indexmap::IndexMap;
use std::alloc::Global;

/// The nodes of instances' members by the instances' numbers and the members' names.
#[derive(Drop)]
pub(crate) struct Places {
    pub(crate) numbers: IndexMap<(u32, usize), u32>,
}

impl Places {
    /// No places. It takes no memory.
    pub(crate) fn new(alloc: Global) -> Places
        ensures { AreHeld [] result }
    {
        Places {
            numbers: IndexMap::new(alloc),
        }
    }

    /// Puts in the node of a member's name in an instance, both by their numbers, where nothing was put in for it before.
    pub(crate) fn put(&mut self, instance: u32, name: usize, node: u32) -> Result<(), NoMemory>
        ensures { OnOk result (HoldsMore self.old (instance, name) node self.new) }
    {
        if self.numbers.contains_key(&(instance, name)) {
            return Ok(());
        }
        self.numbers.insert((instance, name), node)?;
        Ok(())
    }

    /// The node of a member's name in an instance, both by their numbers.
    pub(crate) fn get(&self, instance: u32, name: usize) -> Option<u32>
        ensures { result ≡ held self.now instance name }
    {
        match self.numbers.get(&(instance, name)) {
            Some(node) => Some(*node),
            None => None,
        }
    }
}
