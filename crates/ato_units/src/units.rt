//! Reading the texts of units.
ghost use Rattle.std.specs.Prelude.{◌≡◌, Some, None, MatchResult, option_map, map};
ghost use Rattle.ato_units.specs.Units.{prefixed, with_prefixes, scaled_by, meaning_in, unit_of, dim_of};
ghost use Rattle.ato_units.specs.Tables.{meaning, listed, listed_prefix, listed_prefixes};
ghost use Rattle.ato_units.specs.UnitReading.{IsUnit, found_meaning, known_meaning};

use crate::Dim;
use crate::known::Known;
use crate::named_units::{prefixes, quantity_words, units};
use crate::numbers::power_of_ten;
use crate::table::{Entry, Prefix, entry_of};
use ato_frac::Frac;

/// A unit: its dimension, and how many of the dimension's own unit (of metre, kilogram, second,
/// ampere, kelvin, mole and candela) it is.
#[derive(Clone, Copy, Debug, PartialEq, Eq)]
pub struct Unit {
    pub dim: Dim,
    pub scale: Frac,
}

/// The text is no unit's.
#[derive(Clone, Copy, Debug, PartialEq, Eq)]
pub struct UnknownUnit;

/// The unit of a text: a name, or a prefix of the SI before a name that may have one, or `%`. Names
/// and prefixes are told apart by upper and lower case.
pub fn read_unit(text: &str) -> Result<Unit, UnknownUnit>
    ensures { MatchResult result (IsUnit text.now) (λ _. unit_of text.now ≡ None) }
{
    match known_unit(text) {
        Some(known) => Ok(Unit {
            dim: known.dim,
            scale: power_of_ten(known.tens),
        }),
        None => Err(UnknownUnit),
    }
}

/// The unit of a text.
pub(crate) fn known_unit(text: &str) -> Option<Known>
    ensures { option_map known_meaning result ≡ unit_of text.now }
{
    match find_unit(text.as_bytes()) {
        Some(found) => Some(Known {
            dim: found.dim,
            tens: found.tens,
        }),
        None => None,
    }
}

/// The dimension that a declaration names: by a word for a quantity, as `voltage`, else by a unit,
/// whose scale has no effect.
pub fn read_dim(text: &str) -> Result<Dim, UnknownUnit>
    ensures { MatchResult result (λ dim. dim_of text.now ≡ Some dim.0) (λ _. dim_of text.now ≡ None) }
{
    match entry_of(quantity_words(), text.as_bytes()) {
        Some(word) => Ok(word.dim),
        None => match find_unit(text.as_bytes()) {
            Some(unit) => Ok(unit.dim),
            None => Err(UnknownUnit),
        },
    }
}

/// A dimension and a power of ten.
#[derive(Clone, Copy)]
pub(crate) struct Found {
    pub(crate) dim: Dim,
    pub(crate) tens: i32,
}

impl Found {
    /// What an entry means.
    fn of(entry: &Entry) -> Found
        ensures { found_meaning result ≡ meaning entry.now }
    {
        Found {
            dim: entry.dim,
            tens: entry.tens as i32,
        }
    }

    /// What an entry means behind a prefix.
    fn behind(prefix: &Prefix, entry: &Entry) -> Found
        ensures { found_meaning result ≡ scaled_by prefix.now.tens (meaning entry.now) }
    {
        Found {
            dim: entry.dim,
            tens: prefix.tens as i32 + entry.tens as i32,
        }
    }
}

/// The unit of a text: a name, or a prefix and a name.
fn find_unit(text: &[u8]) -> Option<Found>
    ensures { option_map found_meaning result ≡ unit_of text.now }
{
    let table = units();
    match entry_of(table.prefixable, text) {
        Some(entry) => Some(Found::of(entry)),
        None => match entry_of(table.whole_only, text) {
            Some(entry) => Some(Found::of(entry)),
            None => find_prefixed(prefixes(), table.prefixable, text),
        },
    }
}

/// The unit of one of the prefixes and a name.
fn find_prefixed(prefixes: &[Prefix], entries: &[Entry], text: &[u8]) -> Option<Found>
    ensures { option_map found_meaning result ≡ meaning_in (with_prefixes (listed_prefixes prefixes.now) (listed entries.now)) text.now }
{
    for prefix in prefixes {
        match find_behind(prefix, entries, text) {
            Some(found) => return Some(found),
            None => {}
        }
    }
    None
}

/// The unit of this prefix and a name.
fn find_behind(prefix: &Prefix, entries: &[Entry], text: &[u8]) -> Option<Found>
    ensures { option_map found_meaning result ≡ meaning_in (map (prefixed (listed_prefix prefix.now)) (listed entries.now)) text.now }
{
    match text.strip_prefix(prefix.text.as_bytes()) {
        None => None,
        Some(rest) => match entry_of(entries, rest) {
            None => None,
            Some(entry) => Some(Found::behind(prefix, entry)),
        },
    }
}
