ghost use Rattle.std.specs.Prelude.{◌≡◌, IsErrOf};
ghost use Rattle.std.specs.FinMap as map;
ghost use Rattle.ato_outside.specs.Files.{files_of};
ghost use Rattle.ato_outside.specs.Causes.{Counts};
ghost use Rattle.ato_outside.specs.Shelf.{IsAnswer, Fits};
ghost use Rattle.ato_outside.specs.SureFiles.{GetsFromSureFiles, GetsSurely};

use crate::entries::Entries;
use crate::{Got, Shelf, ShelfError};
use ato_base::{List, Text};
use std::marker::Model;

/// A shelf in memory that never fails.
///
/// Contracts see it as its files and its count of misses.
#[derive(Debug, Drop)]
pub struct SureShelf {
    files: Entries,
    misses: u64,
}

impl Model for SureShelf {
    ghost use Rattle.ato_outside.specs.SureFiles.{SureFiles, sure_code};

    ghost Value = { SureFiles };

    ghost coded = { sure_code };

    ghost view = { λ it. record { files = it.files; misses = it.misses } };
}

impl SureShelf {
    /// A shelf of these files. Of several entries for a name the first counts.
    pub fn new(files: List<(Text, List<u8>)>) -> SureShelf
        ensures { result ≡ record { files = files_of files; misses = 0 } }
    {
        SureShelf {
            files: Entries::from_list(files),
            misses: 0,
        }
    }

    /// How many calls found no file of their name.
    pub fn misses(&self) -> u64
        ensures { result ≡ self.now.misses }
    {
        self.misses
    }
}

impl Shelf for SureShelf {
    ghost use Rattle.std.specs.Prelude.{Some};

    ghost gets = { GetsFromSureFiles };

    ghost files = { λ s. Some s.files };

    ghost faults = { λ _. 0 };

    ghost misses = { λ s. s.misses };

    fn get(&mut self, name: &str, limit: usize, into: &mut Vec<u8>) -> Result<Got, ShelfError>
        ensures asked { GetsFromSureFiles self.old name.now limit result into.new.items self.new }
        ensures same { self.new.files ≡ self.old.files }
        ensures told { IsAnswer (map.get self.old.files name.now) limit result into.new.items }
        ensures room { Fits limit result into.new.items }
        ensures faults { Counts 0 0 (IsErrOf result ShelfError.Failed) }
        ensures misses { Counts self.old.misses self.new.misses (result ≡ Ok Got.Missing) }
        ensures sure { GetsSurely self.old self.new result }
    {
        let answer = self.files.read(name, limit, into);
        if answer == Ok(Got::Missing) {
            self.misses = self.misses.saturating_add(1);
        }
        answer
    }
}
