ghost use Rattle.std.specs.Prelude.{◌≡◌, ℕ, List, Some, None, OnOk, IfOk, if◌then◌else◌, suc};
ghost use Rattle.std.specs.Option.{option_or, option_map};
ghost use Rattle.std.specs.Str.{bytes_eq};
ghost use Rattle.ato_files.specs.FileMaps.{number_in, AreNumbers};

use crate::SourceFile;
use ato_base::NoMemory;
use indexmap::IndexMap;
use std::alloc::Global;

/// Numbers of files, by their names. What is put in first for a name counts.
#[derive(Drop)]
pub(crate) struct FileMap<'a> {
    numbers: IndexMap<&'a [u8], usize>,
}

impl<'a> FileMap<'a> {
    /// A map that holds nothing. It takes no memory.
    fn new(alloc: Global) -> FileMap<'a>
        ensures { (text : List ℕ) → number_in result text ≡ None }
    {
        FileMap {
            numbers: IndexMap::new(alloc),
        }
    }

    /// Puts in the number of a name, where nothing was put in for it before.
    fn put(&mut self, name: &'a [u8], number: usize) -> Result<(), NoMemory>
        ensures { OnOk result ((text : List ℕ) → number_in self.new text ≡ option_or (number_in self.old text) (if bytes_eq text name.now then Some number else None)) }
    {
        if self.numbers.contains_key(name) {
            return Ok(());
        }
        self.numbers.insert(name, number)?;
        Ok(())
    }

    /// The numbers of the files behind the library, which has the number 0.
    pub(crate) fn of(alloc: Global, files: &'a [SourceFile]) -> Result<FileMap<'a>, NoMemory>
        ensures { IfOk result (λ m. AreNumbers files.now m) }
    {
        let mut map = FileMap::new(alloc);
        for (number, file) in files.iter().enumerate() {
            if number > 0 {
                map.put(file.name.as_str().as_bytes(), number)?;
            }
        }
        Ok(map)
    }

    /// The number that is held for a name.
    pub(crate) fn get(&self, name: &[u8]) -> Option<usize>
        ensures { result ≡ number_in self.now name.now }
    {
        match self.numbers.get(name) {
            Some(number) => Some(*number),
            None => None,
        }
    }
}
