ghost use Rattle.std.specs.Prelude.{◌≡◌, ◌≢◌, option_map, IfOk, OnOk, OnErr};
ghost use Rattle.std.specs.FinMap as map;
ghost use Rattle.ato_outside.specs.Files.{files_of};
ghost use Rattle.ato_outside.specs.Shelf.{IsAnswer, Fits};

use crate::{Got, ShelfError};
use ato_base::{List, NoMemory, Text};
use std::alloc::Global;
use std::marker::Model;

/// Files in memory, which contracts see as the map of bytes by names.
///
/// They are a list in which an entry hides the later ones of its name.
#[derive(Debug, Drop)]
pub(crate) struct Entries {
    items: Vec<(Text, List<u8>)>,
}

impl Model for Entries {
    ghost use Rattle.ato_outside.specs.Files.{Files, files_code, files_of};

    ghost Value = { Files };

    ghost coded = { files_code };

    ghost view = { λ it. files_of it.items.items };
}

impl Entries {
    /// No files. It takes no memory.
    pub(crate) fn new(alloc: Global) -> Entries
        ensures { result ≡ map.empty }
    {
        Entries {
            items: Vec::new(alloc),
        }
    }

    /// The files of a list, in its memory. Of several entries for a name the first counts.
    pub(crate) fn from_list(files: List<(Text, List<u8>)>) -> Entries
        ensures { result ≡ files_of files }
    {
        Entries {
            items: files.into_vec(),
        }
    }

    /// The bytes of a name, where it is there.
    pub(crate) fn bytes_of(&self, name: &str) -> Option<&[u8]>
        ensures { option_map (λ bytes. bytes.now) result ≡ map.get self.now name.now }
    {
        first_of(self.items.as_slice(), name)
    }

    /// Reads the bytes of a name, where there are at most `limit`.
    pub(crate) fn read(
        &self,
        name: &str,
        limit: usize,
        into: &mut Vec<u8>,
    ) -> Result<Got, ShelfError>
        ensures answer { IsAnswer (map.get self.now name.now) limit result into.new.items }
        ensures room { Fits limit result into.new.items }
        ensures sure { result ≢ Err ShelfError.Failed }
    {
        into.clear();
        let Some(bytes) = self.bytes_of(name) else {
            return Ok(Got::Missing);
        };
        if bytes.len() > limit {
            return Ok(Got::TooLong);
        }
        match into.extend_from_slice(bytes) {
            Ok(()) => Ok(Got::Whole),
            Err(_) => Err(ShelfError::NoMemory),
        }
    }

    /// Lets a name hold these bytes. Where there is no memory nothing changes.
    pub(crate) fn put(&mut self, name: &str, bytes: &[u8]) -> Result<(), NoMemory>
        ensures ok { OnOk result (self.new ≡ map.insert self.old name.now bytes.now) }
        ensures err { OnErr result (self.new ≡ self.old) }
    {
        let alloc = *self.items.allocator();
        let entry = new_entry(alloc, name, bytes)?;
        self.items.insert(0, entry)?;
        Ok(())
    }
}

/// An entry of this name and these bytes.
fn new_entry(alloc: Global, name: &str, bytes: &[u8]) -> Result<(Text, List<u8>), NoMemory>
    ensures { IfOk result (λ entry. (entry.0 ≡ name.now) × (entry.1 ≡ bytes.now)) }
{
    let text = Text::copy(alloc, name)?;
    let mut copy = Vec::new(alloc);
    copy.extend_from_slice(bytes)?;
    Ok((text, List::from_vec(copy)))
}

/// The bytes of the first entry of a name.
#[tactic(auto, using(crate::proofs::FilesLemmas::first_entries))]
fn first_of<'a>(entries: &'a [(Text, List<u8>)], name: &str) -> Option<&'a [u8]>
    ensures { option_map (λ bytes. bytes.now) result ≡ map.get (files_of entries.now) name.now }
{
    for (text, bytes) in entries {
        if name == text.as_str() {
            return Some(bytes.as_slice());
        }
    }
    None
}
