//! The header of a catalogue, and what is wrong with one.
ghost use Rattle.std.specs.Prelude.{◌≡◌, ◌≤◌, [], true, length, get_or, take, option_map, IfNone};
ghost use Rattle.std.specs.Bool.{OnTrue};
ghost use Rattle.std.specs.List.{list_all};
ghost use Rattle.std.specs.Str.{bytes_eq, is_utf8};
ghost use Rattle.csv.specs.Records.{fields_of};
ghost use Rattle.ato_catalog.specs.Header.{is_among, is_header, is_remark, is_some_text, is_twice, place_of, role_of, twice_after};
ghost use Rattle.ato_catalog.specs.HeaderFaults.{header_fault, in_header};
ghost use Rattle.ato_catalog.specs.Limits.{most_columns};

use crate::cells::{cell_at, is_text};
use ato_base::{FaultKind, List, Text};
use csv::ByteRecord;

/// The most columns that a catalogue may have.
const MOST_COLUMNS: usize = 64;

/// The column of an attribute.
#[derive(Debug, Drop)]
pub struct Column {
    /// The attribute's name, which is the column's heading.
    pub name: Text,
    /// The column's number in the header, counted from 1.
    pub at: u32,
}

/// What stands in a column.
#[derive(Clone, Copy, Debug, PartialEq, Eq)]
pub(crate) enum Role {
    /// The names of the parts.
    Part,
    /// The kinds of the parts.
    Kind,
    /// The packages of the parts.
    Package,
    /// The footprints of the parts.
    Footprint,
    /// The prices of the parts.
    Price,
    /// What is not read.
    Remark,
    /// The quantities of an attribute.
    Attribute,
}

/// What stands in each column, and where the headings with a meaning of their own stand. Places are
/// counted from 0; that of a heading which is missing is the number of columns.
#[derive(Debug, Drop)]
pub(crate) struct Layout {
    /// What stands in each column.
    pub roles: List<Role>,
    /// The place of the parts' names.
    pub part: usize,
    /// The place of the parts' kinds.
    pub kind: usize,
    /// The place of the packages.
    pub package: usize,
    /// The place of the footprints.
    pub footprint: usize,
    /// The place of the prices.
    pub price: usize,
    /// The columns of attributes.
    pub attributes: List<Column>,
}

fn is_remark(heading: &[u8]) -> bool
    ensures { result ≡ is_remark heading.now }
{
    match heading {
        [] => false,
        [first, ..] => *first == b'#',
    }
}

/// What stands under a heading.
#[tactic(auto, unfolding(crate::specs::Header::role_of))]
pub(crate) fn role_of(heading: &[u8]) -> Role
    ensures { result ≡ role_of heading.now }
{
    if heading == b"part".as_slice() {
        Role::Part
    } else if heading == b"kind".as_slice() {
        Role::Kind
    } else if heading == b"package".as_slice() {
        Role::Package
    } else if heading == b"footprint".as_slice() {
        Role::Footprint
    } else if heading == b"price".as_slice() {
        Role::Price
    } else if is_remark(heading) {
        Role::Remark
    } else {
        Role::Attribute
    }
}

/// Whether no heading is empty.
#[tactic(auto, using(crate::proofs::CellLaws::list_all_step, crate::proofs::CellLaws::list_all_fails))]
fn has_headings(header: &ByteRecord) -> bool
    ensures { result ≡ list_all is_some_text (fields_of header.now) }
{
    for place in 0..header.len() {
        if cell_at(header, place).len() == 0 {
            return false;
        }
    }
    true
}

/// Whether a heading stands in one of the first columns, so many as `end`.
#[tactic(auto, using(crate::proofs::HeadingLaws::is_among_more, crate::proofs::HeadingLaws::is_among_here))]
fn stands_before(header: &ByteRecord, end: usize, heading: &[u8]) -> bool
    requires { end ≤ length (fields_of header.now) }
    ensures { result ≡ is_among (take end (fields_of header.now)) heading.now }
{
    for place in 0..end {
        if heading == cell_at(header, place) {
            return true;
        }
    }
    false
}

/// Whether a heading stands in the header.
fn has_heading(header: &ByteRecord, heading: &[u8]) -> bool
    ensures { result ≡ is_among (fields_of header.now) heading.now }
{
    stands_before(header, header.len(), heading)
}

/// Whether a record is a header, unless a heading stands twice.
#[tactic(auto, unfolding(crate::specs::Header::is_header))]
fn is_header(row: &ByteRecord) -> bool
    ensures header { result ≡ is_header (fields_of row.now) }
    ensures narrow { OnTrue result (length (fields_of row.now) ≤ most_columns) }
    ensures text { OnTrue result (list_all is_utf8 (fields_of row.now) ≡ true) }
{
    if row.len() > MOST_COLUMNS || !is_text(row) {
        return false;
    }
    has_headings(row)
        && has_heading(row, b"part".as_slice())
        && has_heading(row, b"kind".as_slice())
}

/// Whether the heading at a place is no remark and stands before it too.
fn is_twice(header: &ByteRecord, place: usize) -> bool
    requires { place ≤ length (fields_of header.now) }
    ensures { result ≡ is_twice (take place (fields_of header.now)) (get_or (fields_of header.now) place []) }
{
    let heading = cell_at(header, place);
    !is_remark(heading) && stands_before(header, place, heading)
}

/// The number of the first column whose heading is no remark and stands before it too.
#[tactic(auto, using(crate::proofs::HeadingLaws::twice_more, crate::proofs::HeadingLaws::twice_here, crate::proofs::HeadingLaws::twice_end))]
fn find_twice(header: &ByteRecord) -> Option<u32>
    requires { length (fields_of header.now) ≤ most_columns }
    ensures { result ≡ twice_after [] (fields_of header.now) }
{
    for place in 0..header.len() {
        if is_twice(header, place) {
            return Some(place as u32 + 1);
        }
    }
    None
}

/// What is wrong with a header, and in which column: 0 for the whole of it.
#[tactic(auto, unfolding(crate::specs::HeaderFaults::header_fault))]
pub(crate) fn find_header_fault(header: &ByteRecord) -> Option<(FaultKind, u32)>
    ensures fault { option_map in_header result ≡ header_fault (fields_of header.now) }
    ensures narrow { IfNone result (length (fields_of header.now) ≤ most_columns) }
    ensures text { IfNone result (list_all is_utf8 (fields_of header.now) ≡ true) }
{
    if !is_header(header) {
        return Some((FaultKind::NoHeader, 0));
    }
    let column = find_twice(header)?;
    Some((FaultKind::ColumnTwice, column))
}

/// The place of the first column with a heading, counted from 0, or the number of columns.
pub(crate) fn place_of(header: &ByteRecord, heading: &[u8]) -> usize
    ensures place { result ≡ place_of heading.now (fields_of header.now) }
    ensures within { result ≤ length (fields_of header.now) }
{
    for place in 0..header.len() {
        if heading == cell_at(header, place) {
            return place;
        }
    }
    header.len()
}
