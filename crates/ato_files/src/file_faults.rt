//! The faults of the names of files.
ghost use Rattle.std.specs.Prelude.{◌≡◌, [], ◌∷◌, List, Some, slice_get, is_none, if◌then◌else◌, OnOk};
ghost use Rattle.std.specs.List.{flat_map};
ghost use Rattle.ato_base.specs.declared.faults.FaultKind.TheVariants as kinds;
ghost use Rattle.ato_files.specs.declared.program.SourceFile.{SourceFile};
ghost use Rattle.ato_files.specs.Blocks.{imports_of};
ghost use Rattle.ato_files.specs.FileFaults.{import_faults};
ghost use Rattle.ato_files.specs.Meant.{AreMeanings, taken};
ghost use Rattle.ato_files.specs.NameFaults.{file_faults};
ghost use Rattle.ato_files.specs.Noted.{noted};

use crate::SourceFile;
use crate::file_names::note_file_names;
use crate::imports::imports_of;
use crate::least::Least;
use crate::meanings::Meanings;
use ato_base::{FaultKind, NoMemory};
use std::alloc::Global;

/// Notes the imports of a file that take nothing.
fn note_imports(
    alloc: Global,
    meanings: &Meanings,
    number: usize,
    file: &SourceFile,
    least: &mut Least,
) -> Result<(), NoMemory>
    ensures { OnOk result ((files : List SourceFile) → AreMeanings files meanings.now → slice_get files number ≡ Some file.now → least.new ≡ noted least.old (flat_map (import_faults files file.now) (imports_of file.now))) }
{
    let imports = imports_of(alloc, file)?;
    for (import, (name, _)) in imports.as_slice().iter().enumerate() {
        least.note_if(
            meanings.target(number, import).is_none(),
            FaultKind::NameUnknown,
            name.at,
        );
    }
    Ok(())
}

/// Notes the faults of the names of a file.
#[tactic(auto, using(crate::proofs::NotedLaws::noted_append))]
fn note_file(
    alloc: Global,
    meanings: &Meanings,
    number: usize,
    file: &SourceFile,
    least: &mut Least,
) -> Result<(), NoMemory>
    ensures { OnOk result ((files : List SourceFile) → AreMeanings files meanings.now → slice_get files number ≡ Some file.now → least.new ≡ noted least.old (file_faults files file.now)) }
{
    note_file_names(alloc, file.tree.items.as_slice(), least)?;
    note_imports(alloc, meanings, number, file, least)
}

/// Notes the faults of the names of the files.
pub(crate) fn note_files(
    alloc: Global,
    files: &[SourceFile],
    meanings: &Meanings,
    least: &mut Least,
) -> Result<(), NoMemory>
    requires { AreMeanings files.now meanings.now }
    ensures { OnOk result (least.new ≡ noted least.old (flat_map (file_faults files.now) files.now)) }
{
    for (number, file) in files.iter().enumerate() {
        note_file(alloc, meanings, number, file, least)?;
    }
    Ok(())
}
