//! The entries of a tree for the assignments that count.
ghost use Rattle.std.specs.Prelude.{◌≡◌, Some, filter_map, IfOk};
ghost use Rattle.indexmap.specs.IndexMap.{IsUnique};
ghost use Rattle.ato_elab.specs.Built.{same_key};
ghost use Rattle.ato_elab.specs.Counting.{entry_of, entries_of};

use crate::assigned::Assigned;
use ato_base::{List, Name, NameTable, NoMemory, Text};
use ato_instance_tree::Effective;
use std::alloc::Global;

/// The entry of an assignment that is held for a name of an instance, where the name has a text.
fn entry(
    alloc: Global,
    names: &NameTable,
    key: (u32, usize),
    pair: (u32, u32),
) -> Result<Option<Effective>, NoMemory>
    ensures { IfOk result (λ entry. entry ≡ entry_of names.now (key, pair)) }
{
    match names.text(Name(key.1)) {
        Some(text) => Ok(Some(Effective {
            node: key.0,
            name: Text::copy(alloc, text)?,
            by: pair.0,
        })),
        None => Ok(None),
    }
}

/// The entries of all assignments that are held.
pub(crate) fn effective(
    alloc: Global,
    names: &NameTable,
    assigned: &Assigned,
) -> Result<List<Effective>, NoMemory>
    ensures entries { IfOk result (λ entries. entries ≡ entries_of names.now assigned.now) }
    ensures unique { IfOk result (λ entries. IsUnique same_key assigned.now.by) }
{
    let mut entries = List::new(alloc);
    for (key, pair) in assigned.by.iter() {
        if let Some(entry) = entry(alloc, names, *key, *pair)? {
            entries.push(entry)?;
        }
    }
    Ok(entries)
}
