//! Numbers that were seen.
ghost use Rattle.std.specs.Prelude.{◌≡◌, ◌||◌, [], ℕ, nat_eq, not, OnOk, IfOk};
ghost use Rattle.ato_instance_tree.specs.Seen.{has};

use ato_base::NoMemory;
use indexmap::IndexSet;
use std::alloc::Global;
use std::marker::Model;

/// A set of the numbers of names. Contracts see it as the list of the numbers.
#[derive(Drop)]
pub(crate) struct NumberSet {
    /// The numbers, in the order in which they were put in.
    numbers: IndexSet<usize>,
}

impl Model for NumberSet {
    ghost use Rattle.std.specs.Prelude.{List, ℕ};

    ghost Value = { List ℕ };

    ghost view = { λ it. it.numbers.keys };
}

impl NumberSet {
    /// No numbers. It takes no memory.
    pub(crate) fn new(alloc: Global) -> NumberSet
        ensures { result ≡ [] }
    {
        NumberSet {
            numbers: IndexSet::new(alloc),
        }
    }

    /// Whether a number is there.
    pub(crate) fn contains(&self, number: usize) -> bool
        ensures { result ≡ has self.now number }
    {
        self.numbers.contains(&number)
    }

    /// Puts a number in, and tells whether it is new.
    pub(crate) fn insert(&mut self, number: usize) -> Result<bool, NoMemory>
        ensures new { IfOk result (λ new. new ≡ not (has self.old number)) }
        ensures holds { OnOk result ((n : ℕ) → has self.new n ≡ (nat_eq n number || has self.old n)) }
    {
        Ok(self.numbers.insert(number)?)
    }
}
