//! Reading a file of the input.
ghost use Rattle.std.specs.Prelude.{◌≡◌, ◌≤◌, Ok, IfOk};
ghost use Rattle.ato_outside.specs.Causes.{Counts, Rose};
ghost use Rattle.ato_build.specs.Fetching.{IsFetched};

use ato_base::{List, NoMemory};
use ato_outside::{Got, Shelf, ShelfError};
use std::alloc::Global;

/// What was found at a name.
#[derive(Debug, Drop)]
pub(crate) enum Fetched {
    /// The file could not be read.
    Failed,
    /// There is no such file.
    Missing,
    /// The file is longer than its limit.
    TooLong,
    /// The file's bytes.
    Whole(List<u8>),
}

/// Reads the file of a name, where it has at most so many bytes.
pub(crate) fn fetch<S: Shelf>(
    alloc: Global,
    shelf: &mut S,
    name: &str,
    limit: usize,
) -> Result<Fetched, NoMemory>
    ensures same { S.files shelf.new ≡ S.files shelf.old }
    ensures found { IfOk result (IsFetched (S.files shelf.old) limit name.now) }
    ensures faults { Counts (S.faults shelf.old) (S.faults shelf.new) (result ≡ Ok Fetched.Failed) }
    ensures misses { S.misses shelf.old ≤ S.misses shelf.new }
    ensures missed { result ≡ Ok Fetched.Missing → Rose (S.misses shelf.old) (S.misses shelf.new) }
{
    let mut bytes = Vec::new(alloc);
    match shelf.get(name, limit, &mut bytes) {
        Ok(got) => match got {
            Got::Missing => Ok(Fetched::Missing),
            Got::TooLong => Ok(Fetched::TooLong),
            Got::Whole => Ok(Fetched::Whole(List::from_vec(bytes))),
        },
        Err(error) => match error {
            ShelfError::Failed => Ok(Fetched::Failed),
            ShelfError::NoMemory => Err(NoMemory),
        },
    }
}
