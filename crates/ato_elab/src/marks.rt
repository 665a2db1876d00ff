//! Types that are marked.
ghost use Rattle.std.specs.Prelude.{◌≡◌, ◌||◌, ◌<◌, [], ◌∷◌, ℕ, false, nat_eq, length, List, if◌then◌else◌, IfOk, IfSome};
ghost use Rattle.std.specs.List.{list_any};
ghost use Rattle.ato_elab.specs.Marks.{AreMarked, is_marked};

use ato_base::NoMemory;
use std::alloc::Global;

/// Which of so many types are marked.
#[derive(Drop)]
pub(crate) struct Marks {
    marked: Vec<bool>,
}

impl Marks {
    /// So many types, none of which is marked.
    pub(crate) fn new(alloc: Global, count: usize) -> Result<Marks, NoMemory>
        ensures { IfOk result (λ marks. AreMarked count [] marks) }
    {
        Ok(Marks {
            marked: vec![in alloc; false; count]?,
        })
    }

    /// Whether a type is marked; nothing, where there is no such type.
    pub(crate) fn get(&self, number: u32) -> Option<bool>
        ensures { (count : ℕ) (types : List ℕ) → AreMarked count types self.now → IfSome result (λ marked. (marked ≡ list_any (nat_eq number) types) × (number < count)) }
    {
        self.marked.get(number as usize).copied()
    }

    /// Marks a type or takes its mark.
    pub(crate) fn set(&mut self, number: u32, mark: bool)
        ensures length { length self.new.marked.items ≡ length self.old.marked.items }
        ensures others { (q : ℕ) → number < length self.old.marked.items → is_marked self.new q ≡ (if nat_eq q number then mark else is_marked self.old q) }
    {
        if let Some(marked) = self.marked.get_mut(number as usize) {
            *marked = mark;
        }
    }
}
