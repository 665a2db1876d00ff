//! Designators: a prefix, and a number that counts for each prefix.
ghost use Rattle.std.specs.Prelude.{◌≡◌, ◌+◌, ◌++◌, [], decimal, IfOk, OnOk};
ghost use Rattle.ato_netlists.specs.Counted.{counted, CountsOneMore, HasCounted};

use ato_base::{NoMemory, Text};
use indexmap::IndexMap;
use std::alloc::Global;

/// How many parts have each prefix.
#[derive(Drop)]
pub(crate) struct Designators<'a> {
    counts: IndexMap<&'a [u8], u32>,
}

impl<'a> Designators<'a> {
    /// None so far. It takes no memory.
    pub(crate) fn new(alloc: Global) -> Designators<'a>
        ensures { HasCounted [] result }
    {
        Designators {
            counts: IndexMap::new(alloc),
        }
    }

    /// How many parts have a prefix.
    fn before(&self, prefix: &[u8]) -> u32
        ensures { result ≡ counted self.now prefix.now }
    {
        match self.counts.get(prefix) {
            Some(count) => *count,
            None => 0,
        }
    }

    /// The number of the next part with a prefix.
    fn number(&self, prefix: &[u8]) -> Result<u32, NoMemory>
        ensures { IfOk result (λ number. number ≡ counted self.now prefix.now + 1) }
    {
        match self.before(prefix).checked_add(1) {
            Some(number) => Ok(number),
            None => Err(NoMemory),
        }
    }

    /// Counts the next part with a prefix, and gives its number.
    fn count(&mut self, prefix: &'a [u8]) -> Result<u32, NoMemory>
        ensures number { IfOk result (λ number. number ≡ counted self.old prefix.now + 1) }
        ensures counted { OnOk result (CountsOneMore prefix.now self.old self.new) }
    {
        let number = self.number(prefix)?;
        self.counts.insert(prefix, number)?;
        Ok(number)
    }

    /// The designator of the next part with a prefix.
    pub(crate) fn next(&mut self, alloc: Global, prefix: &'a [u8]) -> Result<Text, NoMemory>
        ensures text { IfOk result (λ text. text ≡ prefix.now ++ decimal (counted self.old prefix.now + 1)) }
        ensures counted { OnOk result (CountsOneMore prefix.now self.old self.new) }
    {
        let number = self.count(prefix)?;
        let mut text = text_of(alloc, prefix)?;
        text.push_str(format!(in alloc; "{number}")?.as_str())?;
        Ok(text)
    }
}

/// A copy of a piece of a source. Each source is a text; of other bytes there is no memory.
pub(crate) fn text_of(alloc: Global, piece: &[u8]) -> Result<Text, NoMemory>
    ensures { IfOk result (λ text. text ≡ piece.now) }
{
    match str::from_utf8(piece) {
        Ok(text) => Text::copy(alloc, text),
        Err(_) => Err(NoMemory),
    }
}
