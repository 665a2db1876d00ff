//! The blocks of files, or the first fault of their names.
ghost use Rattle.std.specs.Prelude.{IfOk};
ghost use Rattle.ato_files.specs.Naming.{IsNamed};

use crate::block_places::block_places;
use crate::infos::block_infos;
use crate::lineages::lineages;
use crate::meanings::Meanings;
use crate::name_faults::name_fault;
use crate::parents::parents;
use crate::{BlockInfo, SourceFile};
use ato_base::{Fault, List, NoMemory};
use std::alloc::Global;

/// What is found of the names of files.
#[derive(Debug, Drop)]
pub(crate) enum Named {
    /// They have no fault, and the blocks are these.
    Sound(List<BlockInfo>),
    /// Their first fault.
    Faulty(Fault),
}

/// The blocks of files, or the first fault of their names.
pub(crate) fn name(alloc: Global, files: &[SourceFile]) -> Result<Named, NoMemory>
    ensures { IfOk result (IsNamed files.now) }
{
    let places = block_places(alloc, files)?;
    let meanings = Meanings::of(alloc, files, places.as_slice())?;
    let parents = parents(alloc, files, places.as_slice(), &meanings)?;
    let found = name_fault(
        alloc,
        files,
        places.as_slice(),
        &meanings,
        parents.as_slice(),
    )?;
    if let Some(fault) = found {
        return Ok(Named::Faulty(fault));
    }
    let lineages = lineages(alloc, parents.as_slice())?;
    Ok(Named::Sound(block_infos(alloc, places.as_slice(), lineages)?))
}
