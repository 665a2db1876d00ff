//! The types that `new` gives to names.
ghost use Rattle.std.specs.Prelude.{◌≡◌, ◌==◌, [], ℕ, List, Some, None, OnOk, if◌then◌else◌};
ghost use Rattle.std.specs.Option.{option_or};
ghost use Rattle.ato_files.specs.declared.program.SourceFile.{SourceFile};
ghost use Rattle.ato_elab.specs.Ways.{AreNews, kept};

use ato_ast::Named;
use ato_base::NoMemory;
use indexmap::IndexMap;
use std::alloc::Global;

/// Types by the numbers of names, each with its name as it is written. What is put in first for a name counts.
#[derive(Drop)]
pub(crate) struct News {
    types: IndexMap<usize, (u32, Named)>,
}

impl News {
    /// No types. It takes no memory.
    pub(crate) fn new(alloc: Global) -> News
        ensures { (files : List SourceFile) → AreNews files [] result }
    {
        News {
            types: IndexMap::new(alloc),
        }
    }

    /// Puts in the type of a name, where nothing was put in for it before.
    pub(crate) fn put(&mut self, name: usize, block: u32, named: Named) -> Result<(), NoMemory>
        ensures { OnOk result ((q : ℕ) → kept self.new q ≡ option_or (kept self.old q) (if name == q then Some (block, named) else None)) }
    {
        if self.types.contains_key(&name) {
            return Ok(());
        }
        self.types.insert(name, (block, named))?;
        Ok(())
    }

    /// The type of a name.
    pub(crate) fn get(&self, name: usize) -> Option<(u32, Named)>
        ensures { result ≡ kept self.now name }
    {
        match self.types.get(&name) {
            Some(new) => Some(*new),
            None => None,
        }
    }
}
