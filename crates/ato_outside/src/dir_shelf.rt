ghost use Rattle.std.specs.Prelude.{◌≡◌, ◌≢◌, ◌≤◌, ◌<◌, length, IfSome, IsErrOf};
ghost use Rattle.std.specs.Path.{path_join};
ghost use Rattle.ato_outside.specs.Causes.{Counts};
ghost use Rattle.ato_outside.specs.Folder.{GetsFromFolder, ReadsPath};
ghost use Rattle.ato_outside.specs.Shelf.{IsAnswer, Fits};

use crate::{Got, OpenError, Shelf, ShelfError, System};
use std::io::{ErrorKind, Read};
use std::marker::Model;
use std::path::Path;

/// A real folder, whose files it tells nothing of.
///
/// Contracts see it as the system that it asks, its path and its counts of faults and misses.
#[derive(Drop)]
pub struct DirShelf<'a, S: System> {
    system: S,
    folder: &'a str,
    faults: u64,
    misses: u64,
}

impl<'a, S: System> Model for DirShelf<'a, S> {
    ghost use Rattle.ato_outside.specs.Folder.{FolderShelf, folder_shelf_code};

    ghost Value = { FolderShelf S };

    ghost coded = { folder_shelf_code S.code };

    ghost view = { λ it. record { system = it.system; folder = it.folder.now; faults = it.faults; misses = it.misses } };
}

impl<'a, S: System> DirShelf<'a, S> {
    /// The shelf of a folder of a system. It takes no memory and reads nothing.
    ///
    /// A call answers Missing only where the system says that there is no such file. Every other
    /// error is a fault.
    pub fn new(system: S, folder: &'a str) -> DirShelf<'a, S>
        ensures { result ≡ record { system = system; folder = folder.now; faults = 0; misses = 0 } }
    {
        DirShelf {
            system,
            folder,
            faults: 0,
            misses: 0,
        }
    }

    /// How many calls failed.
    pub fn faults(&self) -> u64
        ensures { result ≡ self.now.faults }
    {
        self.faults
    }

    /// How many calls found no file of their name.
    pub fn misses(&self) -> u64
        ensures { result ≡ self.now.misses }
    {
        self.misses
    }
}

/// Reads what a file has left, and stops as soon as that is longer than the limit. A read that was
/// interrupted is tried again, and every other error is a failure.
pub(crate) fn read_all<F: Read>(
    file: &mut F,
    limit: usize,
    into: &mut Vec<u8>,
) -> Result<Got, ShelfError>
    ensures told { IfSome (F.remaining file.old)
        (λ rest. IsAnswer (Some rest) limit result into.new.items) }
    ensures room { length into.new.items ≤ limit }
    ensures read { result ≢ Ok Got.Missing }
{
    into.clear();
    let mut piece = [0u8; 4096];
    for _ in 0..u64::MAX {
        match file.read(&mut piece) {
            Ok(0) => return Ok(Got::Whole),
            Ok(count) => {
                if count > limit - into.len() {
                    return Ok(Got::TooLong);
                }
                if into.extend_from_slice(&piece[..count]).is_err() {
                    return Err(ShelfError::NoMemory);
                }
            }
            Err(error) => {
                if error.kind() != ErrorKind::Interrupted {
                    return Err(ShelfError::Failed);
                }
            }
        }
    }
    Err(ShelfError::Failed)
}

/// Opens a file of the folder and reads it.
fn read_file<S: System>(
    system: &mut S,
    folder: &str,
    name: &str,
    limit: usize,
    into: &mut Vec<u8>,
) -> Result<Got, ShelfError>
    ensures room { result ≡ Ok Got.Whole → length into.new.items ≤ limit }
    ensures read { ReadsPath S.opens S.File.remaining system.old (path_join folder.now name.now) limit result into.new.items system.new }
{
    let alloc = *into.allocator();
    let Ok(path) = Path::new(folder).join(alloc, name) else {
        return Err(ShelfError::NoMemory);
    };
    match system.open(path.as_str()) {
        Ok(mut file) => read_all(&mut file, limit, into),
        Err(OpenError::Missing) => Ok(Got::Missing),
        Err(OpenError::Refused) => Err(ShelfError::Failed),
    }
}

impl<'a, S: System> Shelf for DirShelf<'a, S> {
    ghost use Rattle.std.specs.Prelude.{None};

    ghost gets = { GetsFromFolder S.opens S.File.remaining };

    ghost files = { λ _. None };

    ghost faults = { λ s. s.faults };

    ghost misses = { λ s. s.misses };

    fn get(&mut self, name: &str, limit: usize, into: &mut Vec<u8>) -> Result<Got, ShelfError>
        ensures asked { GetsFromFolder S.opens S.File.remaining self.old name.now limit result into.new.items self.new }
        ensures room { Fits limit result into.new.items }
        ensures faults { Counts self.old.faults self.new.faults (IsErrOf result ShelfError.Failed) }
        ensures misses { Counts self.old.misses self.new.misses (result ≡ Ok Got.Missing) }
    {
        let answer = read_file(&mut self.system, self.folder, name, limit, into);
        match answer {
            Ok(Got::Whole) => return Ok(Got::Whole),
            Ok(Got::Missing) => self.misses = self.misses.saturating_add(1),
            Ok(Got::TooLong) => {}
            Err(ShelfError::Failed) => self.faults = self.faults.saturating_add(1),
            Err(ShelfError::NoMemory) => {}
        }
        into.clear();
        answer
    }
}
