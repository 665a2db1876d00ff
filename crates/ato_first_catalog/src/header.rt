//! The header of a catalogue, and which column stands where.
ghost use Rattle.std.specs.Prelude.{ℕ, ◌≡◌, ◌+◌, ◌<◌, ◌≤◌, [], true, length, get_or, drop, codes, IfOk, IfSome, MatchOption, false};
ghost use Rattle.std.specs.Bool.{OnTrue};
ghost use Rattle.std.specs.List.{list_all, position_or_len};
ghost use Rattle.std.specs.Str.{bytes_eq, is_utf8};
ghost use Rattle.csv.specs.Records.{fields_of};
ghost use Rattle.ato_first_catalog.specs.Header.{columns_from, is_among, is_attribute, is_distinct, is_header, is_name_byte, is_name_start, is_word, layout_of, own_headings};
ghost use Rattle.ato_first_catalog.specs.Limits.{most_attributes};

use crate::cells::{cell_at, is_text, text_in};
use ato_base::{List, NoMemory, Text, is_keyword};
use csv::ByteRecord;
use std::alloc::Global;

/// The most attributes that a catalogue may have.
const MOST_ATTRIBUTES: usize = 8;

/// The column of an attribute.
#[derive(Debug, Drop)]
pub struct Column {
    /// The attribute's name, which is the column's heading.
    pub name: Text,
    /// The column's number in the header, counted from 1.
    pub at: u32,
}

/// Which column stands where, by the headings. Columns are counted from 1.
#[derive(Debug, Drop)]
pub(crate) struct Layout {
    /// How many cells the header has.
    pub width: usize,
    /// The column of the parts' names.
    pub part: u32,
    /// The column of the parts' kinds.
    pub kind: u32,
    /// The columns of attributes.
    pub attributes: List<Column>,
}

fn starts_name(byte: u8) -> bool
    ensures { result ≡ is_name_start byte }
{
    byte.is_ascii_alphabetic() || byte == b'_'
}

fn continues_name(byte: u8) -> bool
    ensures { result ≡ is_name_byte byte }
{
    byte.is_ascii_alphanumeric() || byte == b'_'
}

fn has_name_bytes(text: &[u8]) -> bool
    ensures { result ≡ list_all is_name_byte text.now }
{
    text.iter().all(|byte| continues_name(*byte))
}

/// Whether a text is of ASCII letters, digits and `_`, with no digit first.
#[tactic(auto, unfolding(crate::specs::Header::is_word))]
fn is_word(text: &[u8]) -> bool
    ensures { result ≡ is_word text.now }
{
    match text {
        [] => false,
        [first, rest @ ..] => starts_name(*first) && has_name_bytes(rest),
    }
}

/// Whether a heading has a meaning of its own.
fn is_own_heading(text: &[u8]) -> bool
    ensures { result ≡ is_among own_headings text.now }
{
    text == b"part".as_slice()
        || text == b"kind".as_slice()
        || text == b"package".as_slice()
        || text == b"footprint".as_slice()
        || text == b"price".as_slice()
}

/// Whether a heading is that of an attribute.
#[tactic(auto, unfolding(crate::specs::Header::is_attribute))]
fn is_attribute(text: &[u8]) -> bool
    ensures { result ≡ is_attribute text.now }
{
    is_word(text) && !is_keyword(text) && !is_own_heading(text)
}

/// Whether the headings from the third on are those of attributes.
#[tactic(auto, using(crate::proofs::CellLaws::list_all_drop_step, crate::proofs::CellLaws::list_all_drop_fails, crate::proofs::CellLaws::list_all_drop_end))]
fn are_attributes(header: &ByteRecord) -> bool
    ensures { result ≡ list_all is_attribute (drop 2 (fields_of header.now)) }
{
    for place in 2..header.len() {
        if !is_attribute(cell_at(header, place)) {
            return false;
        }
    }
    true
}

/// Whether a heading stands behind this place too.
#[tactic(auto, using(crate::proofs::HeadingLaws::is_among_more, crate::proofs::HeadingLaws::is_among_here, crate::proofs::HeadingLaws::is_among_end))]
fn stands_later(header: &ByteRecord, after: usize, heading: &[u8]) -> bool
    requires inside { after < length (fields_of header.now) }
    requires narrow { length (fields_of header.now) ≤ 2 + most_attributes }
    ensures { result ≡ is_among (drop (after + 1) (fields_of header.now)) heading.now }
{
    for place in after + 1..header.len() {
        if heading == cell_at(header, place) {
            return true;
        }
    }
    false
}

/// Whether no heading from the third on stands twice.
#[tactic(auto, using(crate::proofs::HeadingLaws::is_distinct_more, crate::proofs::HeadingLaws::is_distinct_here, crate::proofs::HeadingLaws::is_distinct_end))]
fn are_distinct(header: &ByteRecord) -> bool
    requires { length (fields_of header.now) ≤ 2 + most_attributes }
    ensures { result ≡ is_distinct (drop 2 (fields_of header.now)) }
{
    for place in 2..header.len() {
        if stands_later(header, place, cell_at(header, place)) {
            return false;
        }
    }
    true
}

/// Whether a record is a header.
#[tactic(auto, unfolding(crate::specs::Header::is_header))]
fn is_header(row: &ByteRecord) -> bool
    ensures header { result ≡ is_header (fields_of row.now) }
    ensures narrow { OnTrue result (length (fields_of row.now) ≤ 2 + most_attributes) }
    ensures text { OnTrue result (list_all is_utf8 (fields_of row.now) ≡ true) }
{
    if row.len() < 2 || row.len() > 2 + MOST_ATTRIBUTES || !is_text(row) {
        return false;
    }
    cell_at(row, 0) == b"part".as_slice()
        && cell_at(row, 1) == b"kind".as_slice()
        && are_attributes(row)
        && are_distinct(row)
}

/// The place of the first column with a heading, counted from 0, or the number of columns.
fn place_of(header: &ByteRecord, heading: &[u8]) -> usize
    ensures place { result ≡ position_or_len (bytes_eq heading.now) (fields_of header.now) }
    ensures within { result ≤ length (fields_of header.now) }
{
    for place in 0..header.len() {
        if heading == cell_at(header, place) {
            return place;
        }
    }
    header.len()
}

/// The columns of the attributes.
#[tactic(auto, using(crate::proofs::HeadingLaws::columns_step, crate::proofs::HeadingLaws::columns_end))]
fn read_attributes(alloc: Global, header: &ByteRecord) -> Result<List<Column>, NoMemory>
    requires narrow { length (fields_of header.now) ≤ 2 + most_attributes }
    requires text { list_all is_utf8 (fields_of header.now) ≡ true }
    ensures { IfOk result (λ columns. columns ≡ columns_from 3 (drop 2 (fields_of header.now))) }
{
    let mut columns = List::new(alloc);
    for place in 2..header.len() {
        let column = place as u32 + 1;
        columns.push(Column {
            name: text_in(alloc, header, column)?,
            at: column,
        })?;
    }
    Ok(columns)
}

/// Where the columns of a header stand, or None where the record is no header.
pub(crate) fn read_header(alloc: Global, row: &ByteRecord) -> Result<Option<Layout>, NoMemory>
    ensures narrow { IfOk result (λ found. IfSome found (λ layout. layout.width ≤ 2 + most_attributes)) }
    ensures header { IfOk result (λ found. MatchOption found
        (is_header (fields_of row.now) ≡ false)
        (λ layout. (is_header (fields_of row.now) ≡ true) × (layout ≡ layout_of (fields_of row.now)))) }
{
    if !is_header(row) {
        return Ok(None);
    }
    Ok(Some(Layout {
        width: row.len(),
        part: place_of(row, b"part".as_slice()) as u32 + 1,
        kind: place_of(row, b"kind".as_slice()) as u32 + 1,
        attributes: read_attributes(alloc, row)?,
    }))
}
