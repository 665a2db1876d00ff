ghost use Rattle.std.specs.Prelude.{◌≡◌, ◌<◌, ◌^◌, List, not, false, length, reverse, IfOk};
ghost use Rattle.ato_files.specs.declared.program.SourceFile.{SourceFile};
ghost use Rattle.ato_files.specs.Blocks.{blocks_of};
ghost use Rattle.ato_files.specs.Lineages.{IsLineage};
ghost use Rattle.ato_files.specs.ParentLists.{AreMade, AreParents, AreLineages, endless, lineage_of};

use crate::endings::endings;
use ato_base::{List, NoMemory};
use std::alloc::Global;

/// The numbers in the other order.
fn turned(mut numbers: Vec<u32>) -> List<u32>
    ensures { result ≡ reverse numbers.items }
{
    numbers.reverse();
    List::from_vec(numbers)
}

/// The lineage of a block whose ancestors end.
fn lineage(alloc: Global, parents: &[Option<u32>], start: u32) -> Result<List<u32>, NoMemory>
    requires made { AreMade parents.now }
    requires within { start < length parents.now }
    requires ends { endless parents.now start ≡ false }
    ensures { IfOk result (λ found. (files : List SourceFile) → AreParents files parents.now → IsLineage files start found) }
{
    let mut found = Vec::new(alloc);
    let mut block = start;
    for _ in 0..parents.len() + 1 {
        found.push(block)?;
        match parents[block as usize] {
            None => return Ok(turned(found)),
            Some(above) => block = above,
        }
    }
    Ok(turned(found))
}

/// The lineage of a block, if its ancestors end.
fn lineage_if(
    alloc: Global,
    parents: &[Option<u32>],
    number: u32,
    ends: bool,
) -> Result<Option<List<u32>>, NoMemory>
    requires made { AreMade parents.now }
    requires within { number < length parents.now }
    requires ends { ends ≡ not (endless parents.now number) }
    ensures { IfOk result (λ found. (files : List SourceFile) → AreParents files parents.now → found ≡ lineage_of files number) }
{
    if ends {
        Ok(Some(lineage(alloc, parents, number)?))
    } else {
        Ok(None)
    }
}

/// The lineages of the blocks whose ancestors end, by the numbers of the blocks.
pub(crate) fn lineages(
    alloc: Global,
    parents: &[Option<u32>],
) -> Result<List<Option<List<u32>>>, NoMemory>
    requires made { AreMade parents.now }
    requires small { length parents.now < 2 ^ 32 }
    ensures count { IfOk result (λ lineages. length lineages ≡ length parents.now) }
    ensures lineages { IfOk result (λ lineages. (files : List SourceFile) → AreParents files parents.now → AreLineages files (length (blocks_of files)) lineages) }
{
    let ends = endings(alloc, parents)?;
    let mut lineages = List::with_capacity(alloc, parents.len())?;
    for (number, end) in ends.as_slice().iter().enumerate() {
        lineages.push(lineage_if(alloc, parents, number as u32, *end)?)?;
    }
    Ok(lineages)
}
