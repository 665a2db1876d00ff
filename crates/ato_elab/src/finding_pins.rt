//! The pins of types, by their labels.
ghost use Rattle.std.specs.Prelude.{◌≡◌, ◌&&◌, ◌||◌, ℕ, List, false, nat_eq, OnOk};
ghost use Rattle.std.specs.Str.{bytes_eq};
ghost use Rattle.ato_elab.specs.Pins.{holds, holds_maybe};

use ato_base::NoMemory;
use indexmap::IndexSet;
use std::alloc::Global;

/// The labels of the pins of types.
#[derive(Drop)]
pub(crate) struct Pins<'a> {
    /// The numbers of the types, with the labels.
    labels: IndexSet<(u32, &'a [u8])>,
}

impl<'a> Pins<'a> {
    /// No pins. It takes no memory.
    #[tactic(auto, unfolding(crate::specs::Pins::holds))]
    pub(crate) fn new(alloc: Global) -> Pins<'a>
        ensures { (type : ℕ) (text : List ℕ) → holds result type text ≡ false }
    {
        Pins {
            labels: IndexSet::new(alloc),
        }
    }

    /// Puts in that a type has a pin of this label.
    pub(crate) fn put(&mut self, block: u32, text: &'a [u8]) -> Result<(), NoMemory>
        ensures { OnOk result ((type : ℕ) (other : List ℕ) → holds self.new type other ≡ ((nat_eq type block && bytes_eq other text.now) || holds self.old type other)) }
    {
        self.labels.insert((block, text))?;
        Ok(())
    }

    /// Whether a type has a pin of this label.
    #[tactic(auto, unfolding(crate::specs::Pins::holds))]
    fn holds(&self, block: u32, text: &[u8]) -> bool
        ensures { result ≡ holds self.now block text.now }
    {
        self.labels.contains(&(block, text))
    }

    /// The same of a type that may be there.
    pub(crate) fn holds_maybe(&self, block: Option<u32>, text: &[u8]) -> bool
        ensures { result ≡ holds_maybe self.now block text.now }
    {
        match block {
            Some(block) => self.holds(block, text),
            None => false,
        }
    }
}
