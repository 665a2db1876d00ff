ghost use Rattle.std.specs.Prelude.{◌≡◌, IfOk};
ghost use Rattle.ato_files.specs.BlockPlaces.{places_of};
ghost use Rattle.ato_files.specs.Meant.{AreMeanings};
ghost use Rattle.ato_files.specs.ParentLists.{parent_at, AreParents};

use crate::SourceFile;
use crate::block_places::{BlockPlace, block_at};
use crate::meanings::Meanings;
use ato_base::{List, NoMemory};
use std::alloc::Global;

/// The parent of the block at a place.
fn parent_at(files: &[SourceFile], meanings: &Meanings, place: BlockPlace) -> Option<u32>
    ensures { result ≡ parent_at files.now meanings.now place }
{
    let name = block_at(files, place)?.parent?;
    meanings.meaning(place.file as usize, name.name)
}

/// The parents of the blocks, which stand at these places.
pub(crate) fn parents(
    alloc: Global,
    files: &[SourceFile],
    places: &[BlockPlace],
    meanings: &Meanings,
) -> Result<List<Option<u32>>, NoMemory>
    requires places { places.now ≡ places_of files.now }
    requires meanings { AreMeanings files.now meanings.now }
    ensures { IfOk result (λ parents. AreParents files.now parents) }
{
    let mut parents = List::with_capacity(alloc, places.len())?;
    for place in places {
        parents.push(parent_at(files, meanings, *place))?;
    }
    Ok(parents)
}
