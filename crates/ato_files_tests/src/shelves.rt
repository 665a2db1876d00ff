//! Files in memory, on a shelf that keeps what it is asked for.
ghost use Rattle.std.specs.FinMap as map;
ghost use Rattle.std.specs.Prelude.{Some};
ghost use Rattle.ato_outside.specs.Shelf.{IsAnswer};

use ato_base::{List, NoMemory, Text};
use ato_outside::{Got, Shelf, ShelfError, SureShelf};
use std::alloc::Global;

/// How many bytes a file may have.
pub(crate) const MOST: usize = 262_144;

/// Names and texts of files.
pub(crate) type Texts = &'static [(&'static str, &'static str)];

/// Puts a file.
pub(crate) fn put_file(
    files: &mut List<(Text, List<u8>)>,
    alloc: Global,
    name: &str,
    bytes: &[u8],
) -> Result<(), NoMemory> {
    let mut copy = Vec::new(alloc);
    copy.extend_from_slice(bytes)?;
    files.push((Text::copy(alloc, name)?, List::from_vec(copy)))
}

/// Files of these names and texts.
pub(crate) fn files_of(
    alloc: Global,
    texts: &[(&str, &str)],
) -> Result<List<(Text, List<u8>)>, NoMemory> {
    let mut files = List::new(alloc);
    for (name, text) in texts {
        put_file(&mut files, alloc, name, text.as_bytes())?;
    }
    Ok(files)
}

/// A shelf that keeps the names that it is asked for.
#[derive(Drop)]
pub(crate) struct Asked {
    held: SureShelf,
    names: List<Text>,
    faults: u64,
    /// The number of the call that fails, from 1; 0 for none.
    fails: usize,
    /// The number of the call that has no memory.
    starves: usize,
    /// Whether a call had another limit than that of a source.
    is_odd: bool,
}

impl Shelf for Asked {
    ghost gets = { λ old name limit answer bytes _. IsAnswer (map.get old.held.files name) limit answer bytes };

    ghost files = { λ s. Some s.held.files };

    ghost faults = { λ s. s.faults };

    ghost misses = { λ s. s.held.misses };

    fn get(&mut self, name: &str, limit: usize, into: &mut Vec<u8>) -> Result<Got, ShelfError> {
        into.clear();
        let alloc = *into.allocator();
        let Ok(text) = Text::copy(alloc, name) else {
            return Err(ShelfError::NoMemory);
        };
        if self.names.push(text).is_err() || self.names.len() == self.starves {
            return Err(ShelfError::NoMemory);
        }
        self.is_odd |= limit != MOST;
        if self.names.len() == self.fails {
            self.faults = self.faults.saturating_add(1);
            return Err(ShelfError::Failed);
        }
        self.held.get(name, limit, into)
    }
}

impl Asked {
    /// A shelf of these files.
    pub(crate) fn new(alloc: Global, files: List<(Text, List<u8>)>) -> Asked {
        Asked {
            held: SureShelf::new(files),
            names: List::new(alloc),
            faults: 0,
            fails: 0,
            starves: 0,
            is_odd: false,
        }
    }

    /// The same, where the call of this number fails.
    pub(crate) fn failing(self, call: usize) -> Asked {
        Asked {
            fails: call,
            ..self
        }
    }

    /// The same, where the call of this number has no memory.
    pub(crate) fn starving(self, call: usize) -> Asked {
        Asked {
            starves: call,
            ..self
        }
    }

    /// What it was asked for, in this order.
    pub(crate) fn names(&self) -> &[Text] {
        self.names.as_slice()
    }

    /// Whether each call had the limit of a source.
    pub(crate) fn is_limited(&self) -> bool {
        !self.is_odd
    }

    /// Whether it holds these bytes under a name.
    pub(crate) fn holds(
        &mut self,
        alloc: Global,
        name: &str,
        bytes: &[u8],
    ) -> Result<bool, NoMemory> {
        let mut held = Vec::new(alloc);
        match self.held.get(name, MOST, &mut held) {
            Ok(Got::Whole) => Ok(held.as_slice() == bytes),
            Ok(_) => Ok(false),
            Err(_) => Err(NoMemory),
        }
    }
}
