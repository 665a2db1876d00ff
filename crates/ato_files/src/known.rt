ghost use Rattle.std.specs.Prelude.{◌≡◌, ◌<◌, ◌^◌, [], ◌∷◌, OnOk, OnErr, IfOk, length, option_map, slice_get};
ghost use Rattle.ato_base.specs.NameTable.{with_name};

use ato_base::NoMemory;
use indexmap::IndexSet;
use std::alloc::Global;
use std::marker::Model;

/// The names of files that are known, each once, in the order of their first mention.
///
/// Contracts see it as the list of the names.
#[derive(Drop)]
pub(crate) struct FileNames {
    names: IndexSet<String>,
}

impl Model for FileNames {
    ghost use Rattle.std.specs.Prelude.{List, ℕ, string_bytes, map};

    ghost Value = { List (List ℕ) };

    ghost view = { λ it. map string_bytes it.names.keys };
}

impl FileNames {
    /// The name of the entry alone.
    pub(crate) fn new(alloc: Global, entry: &str) -> Result<FileNames, NoMemory>
        ensures { IfOk result (λ known. known ≡ entry.now ∷ []) }
    {
        let mut known = FileNames {
            names: IndexSet::new(alloc),
        };
        known.mention(entry)?;
        Ok(known)
    }

    /// Puts a name in, which goes last where it is new. Where there is no memory the names stay as they were.
    pub(crate) fn mention(&mut self, text: &str) -> Result<(), NoMemory>
        ensures ok { OnOk result (self.new ≡ with_name self.old text.now) }
        ensures err { OnErr result (self.new ≡ self.old) }
    {
        let alloc = *self.names.allocator();
        self.names.insert(String::from_str(alloc, text)?)?;
        Ok(())
    }

    /// How many names there are.
    pub(crate) fn len(&self) -> usize
        ensures len { result ≡ length self.now }
        ensures small { result < 2 ^ 63 }
    {
        self.names.len()
    }

    /// The name of a number, where there is one.
    pub(crate) fn name(&self, number: usize) -> Option<&str>
        ensures { option_map (λ name. name.now) result ≡ slice_get self.now number }
    {
        match self.names.get_index(number) {
            Some(name) => Some(name.as_str()),
            None => None,
        }
    }
}
