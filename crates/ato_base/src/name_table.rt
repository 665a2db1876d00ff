ghost use Rattle.std.specs.Prelude.{◌≡◌, [], ◌∷◌, OnOk, OnErr, IfOk, IfSome, Some, slice_get, position, option_map, codes};
ghost use Rattle.std.specs.Str.{bytes_eq};
ghost use Rattle.ato_base.specs.NameTable.{with_name, number_of};

use crate::NoMemory;
use indexmap::IndexSet;
use std::alloc::Global;
use std::marker::Model;

/// The number of a name in a table.
#[derive(Clone, Copy, Debug, PartialEq, Eq)]
pub struct Name(pub usize);

/// The names of a project, each with a number, in the order in which they were first mentioned.
///
/// Contracts see it as the list of the names' texts. It keeps the allocator that it was made with.
#[derive(Drop)]
pub struct NameTable {
    names: IndexSet<String>,
}

impl Model for NameTable {
    ghost use Rattle.std.specs.Prelude.{List, ℕ, string_bytes, map};

    ghost Value = { List (List ℕ) };

    ghost view = { λ it. map string_bytes it.names.keys };
}

impl NameTable {
    /// The table of `abs`, `max` and `min`, which have the numbers 0, 1 and 2.
    pub fn new(alloc: Global) -> Result<NameTable, NoMemory>
        ensures { IfOk result (λ table. table ≡ codes "abs" ∷ codes "max" ∷ codes "min" ∷ []) }
    {
        let mut table = NameTable {
            names: IndexSet::new(alloc),
        };
        table.intern("abs")?;
        table.intern("max")?;
        table.intern("min")?;
        Ok(table)
    }

    /// The number of a text. A known text keeps its number, a new one gets the next. Where there is
    /// no memory the table stays as it was.
    pub fn intern(&mut self, text: &str) -> Result<Name, NoMemory>
        ensures number { IfOk result (λ name. name.0 ≡ number_of self.old text.now) }
        ensures table { OnOk result (self.new ≡ with_name self.old text.now) }
        ensures held { IfOk result (λ name. slice_get self.new name.0 ≡ Some text.now) }
        ensures same { OnErr result (self.new ≡ self.old) }
    {
        let alloc = *self.names.allocator();
        let (number, _) = self.names.insert_full(String::from_str(alloc, text)?)?;
        Ok(Name(number))
    }

    /// The number of a text, where the table holds it. It takes no memory.
    pub fn find(&self, text: &str) -> Option<Name>
        ensures { option_map (λ name. name.0) result ≡ position (bytes_eq text.now) self.now }
    {
        match self.names.get_index_of(text) {
            Some(number) => Some(Name(number)),
            None => None,
        }
    }

    /// The text of a number, where the table has it. It takes no memory.
    pub fn text(&self, name: Name) -> Option<&str>
        ensures { option_map (λ text. text.now) result ≡ slice_get self.now name.0 }
    {
        match self.names.get_index(name.0) {
            Some(text) => Some(text.as_str()),
            None => None,
        }
    }
}
