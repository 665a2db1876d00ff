//! The strings that count for names of instances.
ghost use Rattle.std.specs.Prelude.{◌≡◌, ℕ, List, None, IfOk, OnOk};
ghost use Rattle.std.specs.Option.{option_map};
ghost use Rattle.ato_files.specs.Programs.{AreBlocks};
ghost use Rattle.ato_netlists.specs.Entries.{held_behind, string_for};
ghost use Rattle.ato_netlists.specs.Known.{IsSound};
ghost use Rattle.ato_netlists.specs.Parts.{AreStrings, held};

use ato_base::NoMemory;
use ato_elab::string_of;
use ato_files::Program;
use ato_instance_tree::{Effective, Tree, source_text};
use indexmap::IndexMap;
use std::alloc::Global;

/// The string that the assignment of an entry assigns.
fn string_for<'a>(program: &'a Program, tree: &Tree, entry: &Effective) -> Option<&'a [u8]>
    ensures { AreBlocks program.now.files program.now.blocks → option_map (λ text. text.now) result ≡ string_for program.now tree.now entry.now }
{
    let stmt = tree.statement(program, entry.by)?;
    let text = string_of(stmt)?;
    Some(source_text(program.files.as_slice(), text.contents))
}

/// The strings that count, by the numbers of instances and the names' texts.
#[derive(Drop)]
pub(crate) struct Strings<'a> {
    /// What stands between the quotes.
    texts: IndexMap<(u32, &'a [u8]), &'a [u8]>,
}

impl<'a> Strings<'a> {
    /// No strings. It takes no memory.
    #[tactic(auto, unfolding(crate::specs::Parts::held))]
    fn new(alloc: Global) -> Strings<'a>
        ensures { (number : ℕ) (word : List ℕ) → held result number word ≡ None }
    {
        Strings {
            texts: IndexMap::new(alloc),
        }
    }

    /// Puts in the string of an assignment that counts, if it assigns one.
    fn put(
        &mut self,
        program: &'a Program,
        tree: &'a Tree,
        entry: &'a Effective,
    ) -> Result<(), NoMemory>
        ensures { OnOk result (AreBlocks program.now.files program.now.blocks → (number : ℕ) (word : List ℕ)
            → held self.new number word ≡ held_behind program.now tree.now number word (held self.old number word) entry.now) }
    {
        match string_for(program, tree, entry) {
            Some(text) => {
                self.texts
                    .insert((entry.node, entry.name.as_str().as_bytes()), text)?;
                Ok(())
            }
            None => Ok(()),
        }
    }

    /// Those of a tree.
    pub(crate) fn of(
        alloc: Global,
        program: &'a Program,
        tree: &'a Tree,
    ) -> Result<Strings<'a>, NoMemory>
        ensures { IfOk result (λ strings. (entry : ℕ) → IsSound program.now tree.now entry → AreStrings program.now entry strings) }
    {
        let mut strings = Strings::new(alloc);
        for entry in tree.effective.as_slice() {
            strings.put(program, tree, entry)?;
        }
        Ok(strings)
    }

    /// The string that counts for a name of an instance.
    #[tactic(auto, unfolding(crate::specs::Parts::held))]
    pub(crate) fn get(&self, instance: u32, name: &str) -> Option<&'a [u8]>
        ensures { option_map (λ text. text.now) result ≡ held self.now instance name.now }
    {
        match self.texts.get(&(instance, name.as_bytes())) {
            Some(text) => Some(*text),
            None => None,
        }
    }
}
