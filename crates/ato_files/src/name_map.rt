ghost use Rattle.std.specs.Prelude.{◌≡◌, ◌++◌, ℕ, List, [], ◌∷◌, Option, OnOk};
ghost use Rattle.ato_files.specs.NameMaps.{held, AreFirst};

use ato_base::NoMemory;
use indexmap::IndexMap;
use std::alloc::Global;

/// Numbers of blocks, or none, by the numbers of files and names. What is put in first for a name of a file counts.
#[derive(Drop)]
pub(crate) struct NameMap {
    meant: IndexMap<(usize, usize), Option<u32>>,
}

impl NameMap {
    /// A map that holds nothing. It takes no memory.
    pub(crate) fn new(alloc: Global) -> NameMap
        ensures { AreFirst [] result }
    {
        NameMap {
            meant: IndexMap::new(alloc),
        }
    }

    /// Puts in what a name of a file means, where nothing was put in for it before.
    pub(crate) fn put(
        &mut self,
        file: usize,
        name: usize,
        block: Option<u32>,
    ) -> Result<(), NoMemory>
        ensures { OnOk result ((pairs : List ((ℕ × ℕ) × Option ℕ)) → AreFirst pairs self.old → AreFirst (pairs ++ ((file, name), block) ∷ []) self.new) }
    {
        if self.meant.contains_key(&(file, name)) {
            return Ok(());
        }
        self.meant.insert((file, name), block)?;
        Ok(())
    }

    /// What is held for a name of a file.
    pub(crate) fn get(&self, file: usize, name: usize) -> Option<Option<u32>>
        ensures { result ≡ held self.now file name }
    {
        match self.meant.get(&(file, name)) {
            Some(block) => Some(*block),
            None => None,
        }
    }
}
