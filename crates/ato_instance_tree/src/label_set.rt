//! Labels that were seen.
ghost use Rattle.std.specs.Prelude.{◌≡◌, ◌||◌, ℕ, List, false, not, OnOk, IfOk};
ghost use Rattle.std.specs.Str.{bytes_eq};
ghost use Rattle.ato_instance_tree.specs.Seen.{holds};

use ato_base::NoMemory;
use indexmap::IndexSet;
use std::alloc::Global;

/// A set of the texts of labels.
#[derive(Drop)]
pub(crate) struct LabelSet<'a> {
    /// The texts, in the order in which they were put in.
    texts: IndexSet<&'a [u8]>,
}

impl<'a> LabelSet<'a> {
    /// No labels. It takes no memory.
    pub(crate) fn new(alloc: Global) -> LabelSet<'a>
        ensures { (text : List ℕ) → holds result text ≡ false }
    {
        LabelSet {
            texts: IndexSet::new(alloc),
        }
    }

    /// Puts a text in, and tells whether it is new.
    pub(crate) fn insert(&mut self, text: &'a [u8]) -> Result<bool, NoMemory>
        ensures new { IfOk result (λ new. new ≡ not (holds self.old text.now)) }
        ensures holds { OnOk result ((other : List ℕ) → holds self.new other ≡ (bytes_eq other text.now || holds self.old other)) }
    {
        Ok(self.texts.insert(text)?)
    }
}
