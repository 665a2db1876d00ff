//! The entry and the catalogue, which every command reads first.
ghost use Rattle.std.specs.Prelude.{◌≡◌, [], ◌≤◌, Option, Err, IfOk, IfSome, length};
ghost use Rattle.ato_base.specs.declared.faults.Fault.{Fault};
ghost use Rattle.ato_outside.specs.Causes.{Rose};
ghost use Rattle.ato_outside.specs.Files.{Files};
ghost use Rattle.ato_build.specs.Causes.{CountsReads};
ghost use Rattle.ato_build.specs.Entry.{GivesBlock, source_limit};
ghost use Rattle.ato_build.specs.Found.{Whole, HasFile};
ghost use Rattle.ato_build.specs.Input.{catalogue_limit};
ghost use Rattle.ato_build.specs.Readings.{IsReading, EndsWith, IsFaultEnd};
ghost use Rattle.ato_build.specs.Texts.{LiesWithin};

use crate::Status;
use crate::answer::Answer;
use crate::entry::{block_of, word_fault};
use crate::fetching::{Fetched, fetch};
use crate::project::Project;
use crate::refusing::{refuse, unread};
use ato_base::{Fault, FaultKind, List, NoMemory, Refusal};
use ato_first::Block;
use ato_first_catalog::{Catalog, read_catalog};
use ato_outside::Shelf;
use std::alloc::Global;

/// The most bytes that a source file may have.
const SOURCE_LIMIT: usize = 262_144;

/// The most bytes that a catalogue may have.
const CATALOGUE_LIMIT: usize = 16_777_216;

/// What was read of a project without a fault: the source of its entry, the block that this gives,
/// and the catalogue.
#[derive(Drop)]
pub(crate) struct Sources {
    pub source: List<u8>,
    pub block: Block,
    pub catalog: Catalog,
}

/// What reading a project gave.
#[derive(Drop)]
pub(crate) enum Reading {
    /// All of it.
    Ready(Sources),
    /// The answer with which the run ends.
    Ended(Answer),
}

/// The end for a fault.
fn fault_end(
    alloc: Global,
    project: &Project,
    source: &[u8],
    fault: Fault,
) -> Result<Reading, NoMemory>
    requires at { LiesWithin source.now fault.at }
    requires other { IfSome fault.other (LiesWithin source.now) }
    requires path { fault.path ≡ [] }
    ensures { IsFaultEnd project.now source.now fault result }
{
    Ok(Reading::Ended(refuse(alloc, project, source, fault)?))
}

/// Puts together what was read, with the bytes of the catalogue.
fn sources_of(
    alloc: Global,
    project: &Project,
    source: List<u8>,
    block: Block,
    bytes: &[u8],
) -> Result<Reading, NoMemory>
    requires { GivesBlock project.now (Whole source) block }
    ensures reading { IfOk result (λ reading. (held : Option Files) → HasFile held source_limit project.now.file (Whole source)
        → HasFile held catalogue_limit project.now.catalogue (Whole bytes.now) → IsReading held project.now reading) }
    ensures was_read { EndsWith Status.ReadFault result → ⊥ }
    ensures not_missing { (f : Fault) → EndsWith (Status.Fault f) result → f.kind ≡ FaultKind.FileMissing → ⊥ }
    ensures no_write { EndsWith Status.WriteFault result → ⊥ }
{
    match read_catalog(alloc, bytes) {
        Ok(catalog) => Ok(Reading::Ready(Sources {
            source,
            block,
            catalog,
        })),
        Err(refusal) => match refusal {
            Refusal::Fault(fault) => fault_end(alloc, project, source.as_slice(), fault),
            Refusal::NoMemory => Err(NoMemory),
        },
    }
}

/// Reads the catalogue of a project whose entry gives a block.
fn read_catalogue<S: Shelf>(
    alloc: Global,
    project: &Project,
    source: List<u8>,
    block: Block,
    shelf: &mut S,
) -> Result<Reading, NoMemory>
    requires { GivesBlock project.now (Whole source) block }
    ensures same { S.files shelf.new ≡ S.files shelf.old }
    ensures reading { IfOk result (λ reading. HasFile (S.files shelf.old) source_limit project.now.file (Whole source) → IsReading (S.files shelf.old) project.now reading) }
    ensures missing { (f : Fault) → EndsWith (Status.Fault f) result → f.kind ≡ FaultKind.FileMissing → Rose (S.misses shelf.old) (S.misses shelf.new) }
    ensures misses { S.misses shelf.old ≤ S.misses shelf.new }
    ensures reads { CountsReads (S.faults shelf.old) (S.faults shelf.new) (EndsWith Status.ReadFault result) (result ≡ Err (record {})) }
    ensures no_write { EndsWith Status.WriteFault result → ⊥ }
{
    match fetch(alloc, shelf, project.catalogue.as_str(), CATALOGUE_LIMIT)? {
        Fetched::Failed => Ok(Reading::Ended(unread(alloc, project.catalogue.as_str())?)),
        Fetched::Missing => fault_end(
            alloc,
            project,
            source.as_slice(),
            word_fault(alloc, FaultKind::FileMissing, 2),
        ),
        Fetched::TooLong => fault_end(
            alloc,
            project,
            source.as_slice(),
            word_fault(alloc, FaultKind::FileTooLong, 2),
        ),
        Fetched::Whole(bytes) => sources_of(alloc, project, source, block, bytes.as_slice()),
    }
}

/// Reads the block of a whole source, and then the catalogue.
fn read_block<S: Shelf>(
    alloc: Global,
    project: &Project,
    source: List<u8>,
    shelf: &mut S,
) -> Result<Reading, NoMemory>
    requires { length source ≤ source_limit }
    ensures same { S.files shelf.new ≡ S.files shelf.old }
    ensures reading { IfOk result (λ reading. HasFile (S.files shelf.old) source_limit project.now.file (Whole source) → IsReading (S.files shelf.old) project.now reading) }
    ensures missing { (f : Fault) → EndsWith (Status.Fault f) result → f.kind ≡ FaultKind.FileMissing → Rose (S.misses shelf.old) (S.misses shelf.new) }
    ensures misses { S.misses shelf.old ≤ S.misses shelf.new }
    ensures reads { CountsReads (S.faults shelf.old) (S.faults shelf.new) (EndsWith Status.ReadFault result) (result ≡ Err (record {})) }
    ensures no_write { EndsWith Status.WriteFault result → ⊥ }
{
    match block_of(alloc, project, source.as_slice()) {
        Ok(block) => read_catalogue(alloc, project, source, block, shelf),
        Err(refusal) => match refusal {
            Refusal::Fault(fault) => fault_end(alloc, project, source.as_slice(), fault),
            Refusal::NoMemory => Err(NoMemory),
        },
    }
}

/// Reads the entry file and the catalogue of a project, up to the first fault or failed read.
pub(crate) fn read_project<S: Shelf>(
    alloc: Global,
    project: &Project,
    shelf: &mut S,
) -> Result<Reading, NoMemory>
    ensures same { S.files shelf.new ≡ S.files shelf.old }
    ensures reading { IfOk result (IsReading (S.files shelf.old) project.now) }
    ensures missing { (f : Fault) → EndsWith (Status.Fault f) result → f.kind ≡ FaultKind.FileMissing → Rose (S.misses shelf.old) (S.misses shelf.new) }
    ensures misses { S.misses shelf.old ≤ S.misses shelf.new }
    ensures reads { CountsReads (S.faults shelf.old) (S.faults shelf.new) (EndsWith Status.ReadFault result) (result ≡ Err (record {})) }
    ensures no_write { EndsWith Status.WriteFault result → ⊥ }
{
    match fetch(alloc, shelf, project.file.as_str(), SOURCE_LIMIT)? {
        Fetched::Failed => Ok(Reading::Ended(unread(alloc, project.file.as_str())?)),
        Fetched::Missing => fault_end(
            alloc,
            project,
            &[],
            word_fault(alloc, FaultKind::FileMissing, 1),
        ),
        Fetched::TooLong => fault_end(
            alloc,
            project,
            &[],
            word_fault(alloc, FaultKind::FileTooLong, 1),
        ),
        Fetched::Whole(source) => read_block(alloc, project, source, shelf),
    }
}
