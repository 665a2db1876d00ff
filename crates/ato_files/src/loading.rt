//! Loading the files of a project.
ghost use Rattle.std.specs.Prelude.{◌≡◌, ◌⊎◌, ◌↔◌, ◌++◌, ℕ, IfErr, IfOk, List, Option, drop, map};
ghost use Rattle.ato_outside.specs.Causes.{Counts};
ghost use Rattle.ato_outside.specs.Files.{Files};
ghost use Rattle.ato_outside.specs.Replies.{Asks, Reply};
ghost use Rattle.ato_files.specs.Answers.{CountsMissing, ForHeld, IsErrWith, IsMissingFault, IsOutFault, IsReadFault, IsRefused, IsUnplainFor};
ghost use Rattle.ato_files.specs.LoadSteps.{IsLoading, IsMissingStop, IsOutStop, IsReadStop, StopsWith, as_source, read_too};
ghost use Rattle.ato_files.specs.Loading.{most_bytes};
ghost use Rattle.ato_files.specs.Replies.{ForReplies, replies_of};

use crate::walking::{Stop, load_all, start};
use crate::{LoadFault, Source, SourceFile};
use ato_base::{List, NameTable, NoMemory};
use ato_outside::Shelf;
use std::alloc::Global;

/// What is loaded of a project.
#[derive(Drop)]
pub(crate) struct Loading {
    /// The table of all names.
    pub(crate) names: NameTable,
    /// The library, and the files in load order.
    pub(crate) files: List<SourceFile>,
}

/// What was read of files.
pub(crate) fn read_files(alloc: Global, files: List<SourceFile>) -> Result<List<Source>, NoMemory>
    ensures { IfOk result (λ sources. sources ≡ map as_source files) }
{
    let mut sources = List::new(alloc);
    for file in files.into_vec() {
        sources.push(Source {
            name: file.name,
            bytes: file.bytes,
        })?;
    }
    Ok(sources)
}

/// What was read of files, and of one more if there is one.
fn sources(
    alloc: Global,
    files: List<SourceFile>,
    read: Option<Source>,
) -> Result<List<Source>, NoMemory>
    ensures { IfOk result (λ sources. sources ≡ map as_source files ++ read_too read) }
{
    let mut sources = read_files(alloc, files)?;
    match read {
        None => Ok(sources),
        Some(source) => {
            sources.push(source)?;
            Ok(sources)
        }
    }
}

/// The answer where loading stops behind these files.
fn refuse(alloc: Global, files: List<SourceFile>, stop: Stop) -> LoadFault
    ensures fault { (told : Option Files) (entry : List ℕ) (replies : List Reply) → StopsWith told entry files stop replies → IsRefused told entry result replies }
    ensures read { IsReadFault result ↔ IsReadStop stop }
    ensures missing { IsMissingFault result → IsMissingStop stop }
    ensures missed { IsMissingStop stop → IsMissingFault result ⊎ IsOutFault result }
    ensures out { IsOutStop stop → IsOutFault result }
{
    match stop {
        Stop::NoMemory => LoadFault::NoMemory,
        Stop::Read(name) => LoadFault::Read(name),
        Stop::Fault(fault, read) => match sources(alloc, files, read) {
            Ok(sources) => LoadFault::Fault(fault, sources),
            Err(_) => LoadFault::NoMemory,
        },
    }
}

/// Loads the files of the project of an entry: the library, the entry and all files that chains of imports lead to, in load order.
///
/// # Errors
///
/// The first fault of the files, a file that could not be read, or want of memory.
pub(crate) fn load_files<S: Shelf>(
    alloc: Global,
    shelf: &mut S,
    entry: &str,
) -> Result<Loading, LoadFault>
    ensures same { S.files shelf.new ≡ S.files shelf.old }
    ensures loaded { IfOk result (λ loading. ForHeld (S.files shelf.old) (λ held. IsLoading held entry.now loading)) }
    ensures asked { IfOk result (λ loading. Asks S.gets most_bytes shelf.old (replies_of (drop 1 loading.files)) shelf.new) }
    ensures refused { IfErr result (λ e. ForReplies S.gets shelf.old shelf.new (IsRefused (S.files shelf.old) entry.now e)) }
    ensures faults { Counts (S.faults shelf.old) (S.faults shelf.new) (IsErrWith IsReadFault result) }
    ensures misses { CountsMissing (S.misses shelf.old) (S.misses shelf.new) (IsUnplainFor S.gets (S.files shelf.old) shelf.old shelf.new entry.now) (IsErrWith IsMissingFault result) (IsErrWith IsOutFault result) }
{
    let mut walk = start(alloc, entry)?;
    match load_all(alloc, shelf, &mut walk) {
        Ok(()) => Ok(Loading {
            names: walk.names,
            files: walk.files,
        }),
        Err(stop) => Err(refuse(alloc, walk.files, stop)),
    }
}
