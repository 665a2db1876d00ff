ghost use Rattle.std.specs.Prelude.{◌≡◌, ◌<◌, ◌^◌, [], OnOk, OnErr, length};
ghost use Rattle.std.specs.List.{list_any, slice_index_or};
ghost use Rattle.std.specs.Str.{bytes_eq};
ghost use Rattle.ato_base.specs.NameTable.{with_name, number_of};

use ato_base::NoMemory;
use indexmap::IndexSet;
use std::alloc::Global;
use std::marker::Model;

/// Texts, each once, in the order in which they were first put in.
///
/// Contracts see it as the list of the texts.
#[derive(Drop)]
pub(crate) struct TextSet {
    texts: IndexSet<String>,
}

impl Model for TextSet {
    ghost use Rattle.std.specs.Prelude.{List, ℕ, string_bytes, map};

    ghost Value = { List (List ℕ) };

    ghost view = { λ it. map string_bytes it.texts.keys };
}

impl TextSet {
    /// No texts. It takes no memory.
    pub(crate) fn new(alloc: Global) -> TextSet
        ensures { result ≡ [] }
    {
        TextSet {
            texts: IndexSet::new(alloc),
        }
    }

    /// How many texts there are.
    pub(crate) fn len(&self) -> usize
        ensures len { result ≡ length self.now }
        ensures small { result < 2 ^ 63 }
    {
        self.texts.len()
    }

    /// Puts a text in, which goes last where it is new.
    pub(crate) fn insert(&mut self, text: &str) -> Result<(), NoMemory>
        ensures ok { OnOk result (self.new ≡ with_name self.old text.now) }
        ensures err { OnErr result (self.new ≡ self.old) }
    {
        let alloc = *self.texts.allocator();
        self.texts.insert(String::from_str(alloc, text)?)?;
        Ok(())
    }

    /// Whether a text is there.
    pub(crate) fn contains(&self, text: &str) -> bool
        ensures { result ≡ list_any (bytes_eq text.now) self.now }
    {
        self.texts.contains(text)
    }

    /// The number of a text, from 0, or how many there are where it is not among them.
    pub(crate) fn number_of(&self, text: &str) -> usize
        ensures number { result ≡ number_of self.now text.now }
        ensures small { result < 2 ^ 63 }
    {
        let count = self.texts.len();
        match self.texts.get_index_of(text) {
            Some(number) => number,
            None => count,
        }
    }

    /// The text of a number.
    pub(crate) fn text(&self, number: usize) -> &str
        requires { number < length self.now }
        ensures { result.now ≡ slice_index_or self.now number [] }
    {
        self.texts.as_slice()[number].as_str()
    }
}
