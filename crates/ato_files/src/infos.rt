ghost use Rattle.std.specs.Prelude.{◌≡◌, List, length, IfOk};
ghost use Rattle.ato_files.specs.declared.program.SourceFile.{SourceFile};
ghost use Rattle.ato_files.specs.Infos.{AreEnding, info_of};
ghost use Rattle.ato_files.specs.Programs.{AreBlocks};

use crate::block_places::BlockPlace;
use crate::program::BlockInfo;
use ato_base::{FileId, List, NoMemory};
use std::alloc::Global;

/// What is kept of a block.
fn block_info(alloc: Global, place: BlockPlace, lineage: Option<List<u32>>) -> BlockInfo
    ensures { result ≡ info_of place lineage }
{
    BlockInfo {
        file: FileId(place.file),
        item: place.item,
        lineage: match lineage {
            Some(lineage) => lineage,
            None => List::new(alloc),
        },
    }
}

/// What is kept of the blocks, from their places and lineages.
pub(crate) fn block_infos(
    alloc: Global,
    places: &[BlockPlace],
    lineages: List<Option<List<u32>>>,
) -> Result<List<BlockInfo>, NoMemory>
    requires { length places.now ≡ length lineages }
    ensures { IfOk result (λ blocks. (files : List SourceFile) → AreEnding files places.now lineages → AreBlocks files blocks) }
{
    let mut rest = lineages.into_vec();
    rest.reverse();
    let mut blocks = List::with_capacity(alloc, places.len())?;
    for place in places {
        if let Some(lineage) = rest.pop() {
            blocks.push(block_info(alloc, *place, lineage))?;
        }
    }
    Ok(blocks)
}
