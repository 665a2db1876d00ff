//! The ancestors of a block, each once.
ghost use Rattle.std.specs.Prelude.{◌≡◌, List, ℕ, length, IfOk};
ghost use Rattle.ato_files.specs.declared.program.SourceFile.{SourceFile};
ghost use Rattle.ato_files.specs.Blocks.{blocks_of};
ghost use Rattle.ato_files.specs.Ancestors.{AreWithin};
ghost use Rattle.ato_files.specs.ParentLists.{AreParents, parent_in};

use crate::number_set::NumberSet;
use ato_base::NoMemory;
use std::alloc::Global;

/// The parent of a block.
pub(crate) fn parent_of(parents: &[Option<u32>], block: usize) -> Option<usize>
    ensures { result ≡ parent_in parents.now block }
{
    match parents.get(block) {
        Some(Some(above)) => Some(*above as usize),
        _ => None,
    }
}

/// A block and its ancestors, each once, where they never end too.
pub(crate) fn ancestors_of(
    alloc: Global,
    parents: &[Option<u32>],
    block: usize,
) -> Result<NumberSet, NoMemory>
    ensures { IfOk result (λ seen. (files : List SourceFile) → AreParents files parents.now → AreWithin files (length (blocks_of files)) block seen) }
{
    let mut seen = NumberSet::new(alloc);
    seen.insert(block)?;
    let mut at = block;
    for step in 0..parents.len() {
        let above = match parent_of(parents, at) {
            None => return Ok(seen),
            Some(above) => above,
        };
        if !seen.insert(above)? {
            return Ok(seen);
        }
        at = above;
    }
    Ok(seen)
}
