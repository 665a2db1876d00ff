//! Loading the files of a project one by one.
ghost use Rattle.std.specs.Prelude.{◌≡◌, ◌+◌, ◌-◌, ◌<◌, ◌≤◌, ◌^◌, ℕ, List, IfErr, IfOk, OnErr, OnOk, Some, drop, length, slice_get, true};
ghost use Rattle.ato_outside.specs.Causes.{Counts};
ghost use Rattle.ato_words.specs.PlainNames.{is_plain};
ghost use Rattle.ato_outside.specs.Replies.{Asks};
ghost use Rattle.ato_files.specs.Answers.{CountsMissing, IsErrWith, IsUnplainFor};
ghost use Rattle.ato_files.specs.Fetching.{CountsMisses};
ghost use Rattle.ato_files.specs.Files.{next_name};
ghost use Rattle.ato_files.specs.LoadSteps.{Adds, HasWalk, IsBegun, IsMissingStop, IsNotAdded, IsOutStop, IsDone, IsReadStop, IsWalk, LoadsOne, StopsBehind, StopsWith};
ghost use Rattle.ato_files.specs.Loading.{Loaded, most_bytes};
ghost use Rattle.ato_files.specs.Replies.{ForReplies, replies_of};

use crate::fetching::{Fetched, fetch};
use crate::known::FileNames;
use crate::library::library;
use crate::reading::read_next;
use crate::{Source, SourceFile};
use ato_base::{Fault, FileId, List, NameTable, NoMemory, Refusal, Text};
use ato_outside::Shelf;
use std::alloc::Global;

/// How far loading has come.
#[derive(Drop)]
pub(crate) struct Walk {
    /// The table of the names of the loaded files.
    pub(crate) names: NameTable,
    /// The library and the loaded files.
    pub(crate) files: List<SourceFile>,
    /// The names of the files that are known.
    pub(crate) known: FileNames,
}

/// Why loading stops.
#[derive(Debug, Drop)]
pub(crate) enum Stop {
    /// A fault of the next file, with this file where it was read.
    Fault(Fault, Option<Source>),
    /// The file of this name could not be read.
    Read(Text),
    /// Memory ran out.
    NoMemory,
}

impl From<NoMemory> for Stop {
    ghost use Rattle.std.specs.Prelude.{◌≡◌};
    ghost use Rattle.ato_files.specs.declared.walking.Stop.TheVariants as stops;

    ghost from_gives = { λ _ e. e ≡ stops.NoMemory };

    fn from(_error: NoMemory) -> Stop {
        Stop::NoMemory
    }
}

/// Loads the library.
pub(crate) fn start(alloc: Global, entry: &str) -> Result<Walk, NoMemory>
    ensures { IfOk result (IsBegun entry.now) }
{
    let mut names = NameTable::new(alloc)?;
    let first = library(alloc, &mut names)?;
    let mut files = List::new(alloc);
    files.push(first)?;
    let known = FileNames::new(alloc, entry)?;
    Ok(Walk {
        names,
        files,
        known,
    })
}

/// Adds the file of this name and of these bytes.
fn add(alloc: Global, walk: &mut Walk, name: Text, bytes: List<u8>) -> Result<(), Stop>
    requires few { length walk.old.files < 2 ^ 32 }
    requires short { length bytes < 2 ^ 32 }
    ensures added { OnOk result (Adds name bytes walk.old walk.new) }
    ensures stopped { IfErr result (IsNotAdded name bytes walk.old) }
    ensures kept { OnErr result (walk.new.files ≡ walk.old.files) }
{
    let number = FileId(walk.files.len() as u32);
    match read_next(
        alloc,
        bytes.as_slice(),
        number,
        &mut walk.names,
        &mut walk.known,
    ) {
        Ok(tree) => {
            walk.files.push(SourceFile { name, bytes, tree })?;
            Ok(())
        }
        Err(Refusal::NoMemory) => Err(Stop::NoMemory),
        Err(Refusal::Fault(fault)) => Err(Stop::Fault(fault, Some(Source { name, bytes }))),
    }
}

/// The files behind the library.
fn behind(files: &[SourceFile]) -> &[SourceFile]
    requires { 0 < length files.now }
    ensures { result.now ≡ drop 1 files.now }
{
    &files[1..]
}

/// Loads the file of the next name, which is this one.
fn load_next<S: Shelf>(
    alloc: Global,
    shelf: &mut S,
    walk: &mut Walk,
    name: Text,
) -> Result<(), Stop>
    requires some { 0 < length walk.old.files }
    requires few { length walk.old.files < 2 ^ 32 }
    ensures same { S.files shelf.new ≡ S.files shelf.old }
    ensures loaded { (entry : List ℕ) (l : Loaded) → IsWalk (S.files shelf.old) entry walk.old l → next_name entry l.files ≡ Some name → OnOk result (HasWalk (S.files shelf.old) entry walk.new) }
    ensures asked { OnOk result (LoadsOne S.gets shelf.old shelf.new walk.old.files walk.new.files) }
    ensures longer { OnOk result (length walk.new.files ≡ length walk.old.files + 1) }
    ensures stopped { (entry : List ℕ) (l : Loaded) → IsWalk (S.files shelf.old) entry walk.old l → next_name entry l.files ≡ Some name → IfErr result (λ stop. ForReplies S.gets shelf.old shelf.new (StopsBehind (S.files shelf.old) entry l stop)) }
    ensures kept { OnErr result (walk.new.files ≡ walk.old.files) }
    ensures faults { Counts (S.faults shelf.old) (S.faults shelf.new) (IsErrWith IsReadStop result) }
    ensures misses { CountsMisses (S.misses shelf.old) (S.misses shelf.new) (is_plain name ≡ true) (IsErrWith IsMissingStop result) (IsErrWith IsOutStop result) }
{
    match fetch(alloc, shelf, behind(walk.files.as_slice()), name.as_str())? {
        Fetched::Failed => Err(Stop::Read(name)),
        Fetched::Fault(fault) => Err(Stop::Fault(fault, None)),
        Fetched::Whole(bytes) => add(alloc, walk, name, bytes),
    }
}

/// The next name, if there is one.
fn next(alloc: Global, walk: &Walk) -> Result<Option<Text>, NoMemory>
    requires { 0 < length walk.now.files }
    ensures { IfOk result (λ name. name ≡ slice_get walk.now.known (length walk.now.files - 1)) }
{
    match walk.known.name(walk.files.len() - 1) {
        None => Ok(None),
        Some(name) => Ok(Some(Text::copy(alloc, name)?)),
    }
}

/// Loads all files behind the library.
pub(crate) fn load_all<S: Shelf>(alloc: Global, shelf: &mut S, walk: &mut Walk) -> Result<(), Stop>
    requires { (entry : List ℕ) × IsBegun entry walk.old }
    ensures same { S.files shelf.new ≡ S.files shelf.old }
    ensures loaded { (entry : List ℕ) → IsBegun entry walk.old → OnOk result (IsDone (S.files shelf.old) entry walk.new) }
    ensures asked { OnOk result (Asks S.gets most_bytes shelf.old (replies_of (drop 1 walk.new.files)) shelf.new) }
    ensures stopped { (entry : List ℕ) → IsBegun entry walk.old → IfErr result (λ stop. ForReplies S.gets shelf.old shelf.new (StopsWith (S.files shelf.old) entry walk.new.files stop)) }
    ensures faults { Counts (S.faults shelf.old) (S.faults shelf.new) (IsErrWith IsReadStop result) }
    ensures missed { (entry : List ℕ) → IsBegun entry walk.old → CountsMissing (S.misses shelf.old) (S.misses shelf.new) (IsUnplainFor S.gets (S.files shelf.old) shelf.old shelf.new entry) (IsErrWith IsMissingStop result) (IsErrWith IsOutStop result) }
{
    while let Some(name) = next(alloc, walk)? {
        match load_next(alloc, shelf, walk, name) {
            Ok(()) => {}
            Err(stop) => return Err(stop),
        }
    }
    Ok(())
}
