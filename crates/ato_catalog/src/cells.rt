//! The cells of a record.
ghost use Rattle.std.specs.Prelude.{◌≡◌, false, true, [], get_or, IfOk, MatchOption};
ghost use Rattle.std.specs.List.{list_all};
ghost use Rattle.std.specs.Str.{is_utf8};
ghost use Rattle.csv.specs.Records.{fields_of};

use ato_base::{NoMemory, Text};
use csv::ByteRecord;
use std::alloc::Global;

/// The cell at a place, counted from 0: an empty one where there is none.
pub(crate) fn cell_at(row: &ByteRecord, place: usize) -> &[u8]
    ensures { result.now ≡ get_or (fields_of row.now) place [] }
{
    match row.get(place) {
        Some(cell) => cell,
        None => &[],
    }
}

/// A cell as text, where it is UTF-8.
pub(crate) fn as_text(cell: &[u8]) -> Option<&str>
    ensures { MatchOption result
        (is_utf8 cell.now ≡ false)
        (λ text. (text.now ≡ cell.now) × (is_utf8 cell.now ≡ true)) }
{
    match str::from_utf8(cell) {
        Ok(text) => Some(text),
        Err(_) => None,
    }
}

/// Whether all cells are UTF-8.
#[tactic(auto, using(crate::proofs::CellLaws::list_all_step, crate::proofs::CellLaws::list_all_fails))]
pub(crate) fn is_text(row: &ByteRecord) -> bool
    ensures { result ≡ list_all is_utf8 (fields_of row.now) }
{
    for place in 0..row.len() {
        if as_text(cell_at(row, place)).is_none() {
            return false;
        }
    }
    true
}

/// The cell at a place as text.
pub(crate) fn text_at(row: &ByteRecord, place: usize) -> &str
    requires { list_all is_utf8 (fields_of row.now) ≡ true }
    ensures { result.now ≡ get_or (fields_of row.now) place [] }
{
    match as_text(cell_at(row, place)) {
        Some(text) => text,
        None => unreachable!(),
    }
}

/// A copy of the text at a place.
pub(crate) fn copy_at(alloc: Global, row: &ByteRecord, place: usize) -> Result<Text, NoMemory>
    requires { list_all is_utf8 (fields_of row.now) ≡ true }
    ensures { IfOk result (λ text. text ≡ get_or (fields_of row.now) place []) }
{
    Text::copy(alloc, text_at(row, place))
}
