//! Fetching the file of a name.
ghost use Rattle.std.specs.Prelude.{◌≡◌, [], ◌∷◌, Ok, IfOk, true};
ghost use Rattle.ato_outside.specs.Causes.{Counts};
ghost use Rattle.ato_outside.specs.Replies.{Asks};
ghost use Rattle.ato_words.specs.PlainNames.{is_plain};
ghost use Rattle.ato_files.specs.Fetching.{CountsMisses, IsFetched, IsFoundBy, IsMissing, IsOut, found_reply};
ghost use Rattle.ato_files.specs.Loading.{file_fault, most_bytes};
ghost use Rattle.ato_files.specs.Replies.{ForReplies};

use crate::SourceFile;
use crate::places::first_mention;
use ato_base::{Fault, FaultKind, List, NoMemory};
use ato_outside::{Got, Shelf, ShelfError};
use ato_words::is_plain;
use std::alloc::Global;

/// What was found at a name.
#[derive(Debug, Drop)]
enum Found {
    /// The file could not be read.
    Failed,
    /// There is no such file.
    Missing,
    /// The file is too long.
    TooLong,
    /// The file's bytes.
    Whole(List<u8>),
}

/// What was fetched at a name.
#[derive(Debug, Drop)]
pub(crate) enum Fetched {
    /// The file could not be read.
    Failed,
    /// There is no file that can be loaded.
    Fault(Fault),
    /// The file's bytes.
    Whole(List<u8>),
}

/// Asks the shelf for the file of a name.
fn ask<S: Shelf>(alloc: Global, shelf: &mut S, name: &str) -> Result<Found, NoMemory>
    ensures same { S.files shelf.new ≡ S.files shelf.old }
    ensures asked { Asks S.gets most_bytes shelf.old (found_reply name.now result ∷ []) shelf.new }
    ensures found { IfOk result (IsFoundBy (S.files shelf.old) name.now) }
    ensures faults { Counts (S.faults shelf.old) (S.faults shelf.new) (result ≡ Ok Found.Failed) }
    ensures misses { Counts (S.misses shelf.old) (S.misses shelf.new) (result ≡ Ok Found.Missing) }
{
    let mut bytes = Vec::new(alloc);
    match shelf.get(name, 262_144, &mut bytes) {
        Ok(got) => match got {
            Got::Missing => Ok(Found::Missing),
            Got::TooLong => Ok(Found::TooLong),
            Got::Whole => Ok(Found::Whole(List::from_vec(bytes))),
        },
        Err(error) => match error {
            ShelfError::Failed => Ok(Found::Failed),
            ShelfError::NoMemory => Err(NoMemory),
        },
    }
}

/// A fault of the file of a name, which stands where the name is first mentioned.
fn file_fault(
    alloc: Global,
    kind: FaultKind,
    name: &str,
    files: &[SourceFile],
) -> Result<Fault, NoMemory>
    ensures { IfOk result (λ fault. fault ≡ file_fault kind name.now files.now) }
{
    Ok(Fault {
        kind,
        at: first_mention(alloc, name, files)?,
        other: None,
        path: List::new(alloc),
    })
}

/// Fetches the file of a plain name.
fn fetch_plain<S: Shelf>(
    alloc: Global,
    shelf: &mut S,
    files: &[SourceFile],
    name: &str,
) -> Result<Fetched, NoMemory>
    requires { is_plain name.now ≡ true }
    ensures same { S.files shelf.new ≡ S.files shelf.old }
    ensures fetched { ForReplies S.gets shelf.old shelf.new (IsFetched (S.files shelf.old) name.now files.now result) }
    ensures faults { Counts (S.faults shelf.old) (S.faults shelf.new) (result ≡ Ok Fetched.Failed) }
    ensures misses { CountsMisses (S.misses shelf.old) (S.misses shelf.new) (is_plain name.now ≡ true) (IsMissing result) (IsOut result) }
{
    match ask(alloc, shelf, name)? {
        Found::Failed => Ok(Fetched::Failed),
        Found::Whole(bytes) => Ok(Fetched::Whole(bytes)),
        Found::Missing => Ok(Fetched::Fault(file_fault(
            alloc,
            FaultKind::FileMissing,
            name,
            files,
        )?)),
        Found::TooLong => Ok(Fetched::Fault(file_fault(
            alloc,
            FaultKind::FileTooLong,
            name,
            files,
        )?)),
    }
}

/// Fetches the file of a name that is mentioned in files.
pub(crate) fn fetch<S: Shelf>(
    alloc: Global,
    shelf: &mut S,
    files: &[SourceFile],
    name: &str,
) -> Result<Fetched, NoMemory>
    ensures same { S.files shelf.new ≡ S.files shelf.old }
    ensures fetched { ForReplies S.gets shelf.old shelf.new (IsFetched (S.files shelf.old) name.now files.now result) }
    ensures faults { Counts (S.faults shelf.old) (S.faults shelf.new) (result ≡ Ok Fetched.Failed) }
    ensures misses { CountsMisses (S.misses shelf.old) (S.misses shelf.new) (is_plain name.now ≡ true) (IsMissing result) (IsOut result) }
{
    if is_plain(name) {
        fetch_plain(alloc, shelf, files, name)
    } else {
        Ok(Fetched::Fault(file_fault(alloc, FaultKind::FileMissing, name, files)?))
    }
}
