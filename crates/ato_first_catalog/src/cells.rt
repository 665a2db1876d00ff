//! The cells of a record.
ghost use Rattle.std.specs.Prelude.{◌≡◌, false, true, [], get_or, IfOk, MatchOption};
ghost use Rattle.std.specs.List.{list_all};
ghost use Rattle.std.specs.Str.{is_utf8};
ghost use Rattle.csv.specs.Records.{fields_of};
ghost use Rattle.ato_first_catalog.specs.Rows.{cell_in};

use ato_base::{NoMemory, Text};
use csv::ByteRecord;
use std::alloc::Global;

/// The cell at a place, counted from 0: an empty one where there is none.
pub(crate) fn cell_at(row: &ByteRecord, place: usize) -> &[u8]
    ensures { result.now ≡ get_or (fields_of row.now) place [] }
{
    match row.get(place) {
        Some(cell) => cell,
        None => &[],
    }
}

/// The cell in a column, counted from 1.
pub(crate) fn cell_in(row: &ByteRecord, column: u32) -> &[u8]
    ensures { result.now ≡ cell_in (fields_of row.now) column }
{
    cell_at(row, (column as usize).saturating_sub(1))
}

/// A cell as text, where it is UTF-8.
fn as_text(cell: &[u8]) -> Option<&str>
    ensures { MatchOption result
        (is_utf8 cell.now ≡ false)
        (λ text. (text.now ≡ cell.now) × (is_utf8 cell.now ≡ true)) }
{
    match str::from_utf8(cell) {
        Ok(text) => Some(text),
        Err(_) => None,
    }
}

/// Whether all cells are UTF-8.
#[tactic(auto, using(crate::proofs::CellLaws::list_all_step, crate::proofs::CellLaws::list_all_fails))]
pub(crate) fn is_text(row: &ByteRecord) -> bool
    ensures { result ≡ list_all is_utf8 (fields_of row.now) }
{
    for place in 0..row.len() {
        if as_text(cell_at(row, place)).is_none() {
            return false;
        }
    }
    true
}

/// A copy of the text in a column, counted from 1.
pub(crate) fn text_in(alloc: Global, row: &ByteRecord, column: u32) -> Result<Text, NoMemory>
    requires { list_all is_utf8 (fields_of row.now) ≡ true }
    ensures { IfOk result (λ text. text ≡ cell_in (fields_of row.now) column) }
{
    match as_text(cell_in(row, column)) {
        Some(text) => Text::copy(alloc, text),
        None => unreachable!(),
    }
}
