//! Replacements that wait at an instance, by the names of its members to which they lead.
ghost use Rattle.std.specs.Prelude.{◌≡◌, ◌==◌, ◌++◌, [], ◌∷◌, ℕ, List, map, IfOk, OnOk, if◌then◌else◌};
ghost use Rattle.ato_elab.specs.Waiting.{Waits, pass_all};
ghost use Rattle.ato_elab.specs.Changes.{seen, passing, listed, AreChanges};

use ato_ast::Named;
use ato_base::{List, NoMemory};
use indexmap::IndexMap;
use std::alloc::Global;

/// A replacement on its way down.
#[derive(Clone, Copy)]
pub(crate) struct Change<'a> {
    /// The names that are left of its path.
    pub(crate) rest: &'a [Named],
    /// The number of the type.
    pub(crate) to: u32,
    /// The type's name, as it is written.
    pub(crate) named: Named,
}

/// The replacements that wait at an instance.
#[derive(Drop)]
pub(crate) struct Changes<'a> {
    /// Those that go on at the member of a name, without this name, by the name's number.
    below: IndexMap<usize, List<Change<'a>>>,
}

impl<'a> Changes<'a> {
    /// No replacements. It takes no memory.
    pub(crate) fn new(alloc: Global) -> Changes<'a>
        ensures { AreChanges [] result }
    {
        Changes {
            below: IndexMap::new(alloc),
        }
    }

    /// Takes out those of a name.
    fn take(&mut self, alloc: Global, name: usize) -> List<Change<'a>>
        ensures result { result ≡ listed self.old name }
        ensures others { (q : ℕ) → listed self.new q ≡ (if name == q then [] else listed self.old q) }
    {
        match self.below.swap_remove(&name) {
            Some(changes) => changes,
            None => List::new(alloc),
        }
    }

    /// Puts one behind those of a name.
    fn push_at(&mut self, alloc: Global, name: usize, change: Change<'a>) -> Result<(), NoMemory>
        ensures { OnOk result ((q : ℕ) → listed self.new q ≡ listed self.old q ++ (if name == q then change.entry ∷ [] else [])) }
    {
        let mut changes = self.take(alloc, name);
        changes.push(change)?;
        self.below.insert(name, changes)?;
        Ok(())
    }

    /// Puts one behind the others; where no name is left it goes on nowhere.
    pub(crate) fn push(&mut self, alloc: Global, change: Change<'a>) -> Result<(), NoMemory>
        ensures { OnOk result ((ws : List Waits) → AreChanges ws self.old → AreChanges (ws ++ seen change.entry ∷ []) self.new) }
    {
        match change.rest.split_first() {
            Some((name, rest)) => self.push_at(
                alloc,
                name.name.0,
                Change {
                    rest,
                    to: change.to,
                    named: change.named,
                },
            ),
            None => Ok(()),
        }
    }

    /// Those that go on at the member of a name, without this name.
    pub(crate) fn at(&self, alloc: Global, name: usize) -> Result<List<Change<'a>>, NoMemory>
        ensures { IfOk result (λ changes. changes ≡ listed self.now name) }
    {
        let mut changes = List::new(alloc);
        if let Some(held) = self.below.get(&name) {
            push_all(&mut changes, held.as_slice())?;
        }
        Ok(changes)
    }
}

/// Puts replacements behind others.
fn push_all<'a>(changes: &mut List<Change<'a>>, more: &[Change<'a>]) -> Result<(), NoMemory>
    ensures { OnOk result (changes.new ≡ changes.old ++ more.now) }
{
    for change in more {
        changes.push(*change)?;
    }
    Ok(())
}
