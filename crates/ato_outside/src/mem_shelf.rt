ghost use Rattle.std.specs.Prelude.{◌≡◌, IsErrOf};
ghost use Rattle.std.specs.FinMap as map;
ghost use Rattle.ato_outside.specs.Files.{files_of};
ghost use Rattle.ato_outside.specs.Causes.{Counts};
ghost use Rattle.ato_outside.specs.Shelf.{IsAnswer, Fits};
ghost use Rattle.ato_outside.specs.MemoryShelf.{GetsInMemory, GetsByNumber, is_failing};

use crate::entries::Entries;
use crate::numbered::is_listed;
use crate::{Got, Shelf, ShelfError};
use ato_base::{List, Text};
use std::marker::Model;

/// A shelf in memory, which fails the calls of the given numbers.
///
/// Contracts see it as its files, the numbers, the calls so far, and its counts of faults and
/// misses.
#[derive(Debug, Drop)]
pub struct MemShelf {
    files: Entries,
    fail: List<u32>,
    calls: u64,
    faults: u64,
    misses: u64,
}

impl Model for MemShelf {
    ghost use Rattle.ato_outside.specs.MemoryShelf.{MemoryShelf, shelf_code};

    ghost Value = { MemoryShelf };

    ghost coded = { shelf_code };

    ghost view = { λ it. record {
      files = it.files;
      fail = it.fail;
      calls = it.calls;
      faults = it.faults;
      misses = it.misses;
    } };
}

impl MemShelf {
    /// A shelf of these files. Of several entries for a name the first counts. Each `get` whose
    /// number, from 1, stands in `fail` answers Failed, and no other does.
    pub fn new(files: List<(Text, List<u8>)>, fail: List<u32>) -> MemShelf
        ensures { result ≡ record {
          files = files_of files;
          fail = fail;
          calls = 0;
          faults = 0;
          misses = 0;
        } }
    {
        MemShelf {
            files: Entries::from_list(files),
            fail,
            calls: 0,
            faults: 0,
            misses: 0,
        }
    }

    /// How many calls failed.
    pub fn faults(&self) -> u64
        ensures { result ≡ self.now.faults }
    {
        self.faults
    }

    /// How many calls found no file of their name.
    pub fn misses(&self) -> u64
        ensures { result ≡ self.now.misses }
    {
        self.misses
    }
}

impl Shelf for MemShelf {
    ghost use Rattle.std.specs.Prelude.{Some};

    ghost gets = { GetsInMemory };

    ghost files = { λ s. Some s.files };

    ghost faults = { λ s. s.faults };

    ghost misses = { λ s. s.misses };

    fn get(&mut self, name: &str, limit: usize, into: &mut Vec<u8>) -> Result<Got, ShelfError>
        ensures asked { GetsInMemory self.old name.now limit result into.new.items self.new }
        ensures same { self.new.files ≡ self.old.files }
        ensures told { IsAnswer (map.get self.old.files name.now) limit result into.new.items }
        ensures room { Fits limit result into.new.items }
        ensures faults { Counts self.old.faults self.new.faults (IsErrOf result ShelfError.Failed) }
        ensures misses { Counts self.old.misses self.new.misses (result ≡ Ok Got.Missing) }
        ensures numbered { GetsByNumber (is_failing self.old) self.old self.new result }
    {
        into.clear();
        self.calls = self.calls.saturating_add(1);
        if is_listed(self.fail.as_slice(), self.calls) {
            self.faults = self.faults.saturating_add(1);
            return Err(ShelfError::Failed);
        }
        let answer = self.files.read(name, limit, into);
        if answer == Ok(Got::Missing) {
            self.misses = self.misses.saturating_add(1);
        }
        answer
    }
}
