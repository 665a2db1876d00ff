//! Tables of units.
ghost use Rattle.std.specs.Prelude.{◌≡◌, ◌+◌, IsTrue, map, length, Option, option_map};
ghost use Rattle.ato_units.specs.Units.{meaning_in};
ghost use Rattle.ato_units.specs.Tables.{meaning, listed, are_one_reading};

use crate::Dim;

/// A unit of a table: its name, its dimension, and the power of ten that its scale is.
#[derive(Clone, Copy)]
pub(crate) struct Entry {
    pub(crate) name: &'static str,
    pub(crate) dim: Dim,
    pub(crate) tens: i8,
}

/// A prefix, and the power of ten that it stands for.
#[derive(Clone, Copy)]
pub(crate) struct Prefix {
    pub(crate) text: &'static str,
    pub(crate) tens: i8,
}

/// N units. Their names differ, and none is a prefix and a name before which a prefix may stand.
#[derive(Drop)]
pub struct UnitTable<const N: usize> {
    pub(crate) prefixable: &'static [Entry],
    pub(crate) whole_only: &'static [Entry],
    ghost count: { length prefixable.now + length whole_only.now ≡ N },
    ghost one_reading: { IsTrue (are_one_reading (listed prefixable.now) (listed whole_only.now)) },
}

/// The entry of a name.
pub(crate) fn entry_of<'a>(entries: &'a [Entry], text: &[u8]) -> Option<&'a Entry>
    ensures { option_map (λ e. (meaning e.now)) result ≡ meaning_in (listed entries.now) text.now }
{
    for entry in entries {
        if entry.name.as_bytes() == text {
            return Some(entry);
        }
    }
    None
}
