//! The assignments that count.
ghost use Rattle.std.specs.Prelude.{◌≡◌, ◌^◌, ◌<◌, ℕ, Some, None, map, length, if◌then◌else◌, OnOk, IfOk};
ghost use Rattle.ato_instance_tree.specs.Walk.{counts, counts_maybe};
ghost use Rattle.ato_elab.specs.Built.{same_key};
ghost use Rattle.ato_elab.specs.Assigned.{assigned_to, held_by, chosen_of, path_target, target_in, noted, picked};

use crate::built::Built;
use crate::finding_paths::{Found, stepped};
use crate::late::small;
use ato_ast::{Path, Stmt, Value};
use ato_base::NoMemory;
use indexmap::IndexMap;
use std::alloc::Global;

/// The occurrences that assign, by the numbers of instances and names.
#[derive(Drop)]
pub(crate) struct Assigned {
    /// The number of the occurrence, and that of its instance.
    pub(crate) by: IndexMap<(u32, usize), (u32, u32)>,
}

/// Whether a value has an effect: truth values have none.
fn counted(value: &Value) -> bool
    ensures { result ≡ counts value.now }
{
    match value {
        Value::Text(_) | Value::Expr(_) => true,
        Value::Truth(_, _) => false,
    }
}

/// The same of a value that may be there.
fn counted_maybe(value: &Option<Value>) -> bool
    ensures { result ≡ counts_maybe value.now }
{
    match value {
        Some(value) => counted(value),
        None => false,
    }
}

/// The instance and the name at the end of a path.
#[tactic(auto, unfolding(crate::specs::Assigned::path_target))]
fn path_target(built: &Built, instance: u32, path: &Path) -> Option<(u32, usize)>
    ensures { result ≡ path_target built.now instance path.now }
{
    if path.pin.is_some() {
        return None;
    }
    match stepped(built, instance, path.at, path.steps.as_slice()) {
        Found::Free(holder, name) => Some((holder, name.name.0)),
        Found::Member(holder, name, _, _) => Some((holder, name.name.0)),
        Found::Lost(_) | Found::Pin(_) => None,
    }
}

/// The instance and the name to which a statement of an instance assigns something.
fn target_in(built: &Built, instance: u32, stmt: &Stmt) -> Option<(u32, usize)>
    ensures { result ≡ target_in built.now instance stmt.now }
{
    match stmt {
        Stmt::Assign(path, value, _) => {
            if counted(value) {
                path_target(built, instance, path)
            } else {
                None
            }
        }
        Stmt::Declare(name, _, value, _) => {
            if counted_maybe(value) {
                Some((instance, name.name.0))
            } else {
                None
            }
        }
        _ => None,
    }
}

/// Which of two occurrences counts: the later one where both are of one instance, else the first.
fn chosen_of(old: Option<(u32, u32)>, new: (u32, u32)) -> (u32, u32)
    ensures { result ≡ chosen_of old new }
{
    match old {
        None => new,
        Some(old) => { if old.1 == new.1 { new } else { old } }
    }
}

impl Assigned {
    /// What is held for a name of an instance.
    fn held(&self, key: (u32, usize)) -> Option<(u32, u32)>
        ensures { result ≡ held_by self.now key.0 key.1 }
    {
        match self.by.get(&key) {
            Some(pair) => Some(*pair),
            None => None,
        }
    }

    /// The occurrence that assigns to a name of an instance.
    pub(crate) fn get(&self, instance: u32, name: usize) -> Option<u32>
        ensures { result ≡ assigned_to self.now instance name }
    {
        match self.held((instance, name)) {
            Some(pair) => Some(pair.0),
            None => None,
        }
    }

    /// Notes that an occurrence assigns to a name of an instance.
    fn put(&mut self, key: (u32, usize), new: (u32, u32)) -> Result<(), NoMemory>
        ensures { OnOk result ((instance name : ℕ) → held_by self.new instance name
            ≡ (if same_key key (instance, name) then Some (chosen_of (held_by self.old instance name) new) else held_by self.old instance name)) }
    {
        let counts = chosen_of(self.held(key), new);
        self.by.insert(key, counts)?;
        Ok(())
    }

    /// Notes a statement of an instance, where it assigns something.
    #[tactic(auto, unfolding(crate::specs::Assigned::noted))]
    fn note(&mut self, built: &Built, number: usize, stmt: &Stmt) -> Result<(), NoMemory>
        ensures { OnOk result ((instance name : ℕ) → held_by self.new instance name ≡ noted built.now instance name number stmt.now (held_by self.old instance name)) }
    {
        let number = small(number)?;
        let Some(entry) = built.occurrences.as_slice().get(number as usize) else {
            return Ok(());
        };
        match target_in(built, entry.node, stmt) {
            Some(key) => self.put(key, (number, entry.node)),
            None => Ok(()),
        }
    }

    /// Which of the statements of the occurrences assign.
    pub(crate) fn of(alloc: Global, built: &Built, stmts: &[&Stmt]) -> Result<Assigned, NoMemory>
        ensures { IfOk result (λ assigned. (instance name : ℕ) → held_by assigned instance name ≡ picked built.now instance name 0 (map (λ s. s.now) stmts.now) None) }
    {
        let mut assigned = Assigned {
            by: IndexMap::new(alloc),
        };
        for (number, stmt) in stmts.iter().enumerate() {
            assigned.note(built, number, stmt)?;
        }
        Ok(assigned)
    }
}
