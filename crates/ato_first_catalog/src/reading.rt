//! Reading a catalogue: the records, the header, and then row by row.
ghost use Rattle.std.specs.Prelude.{ℕ, List, ◌≡◌, ◌<◌, ◌≤◌, ◌+◌, ◌||◌, None, [], length, map, option_map, IfOk, IfErr, OnOk};
ghost use Rattle.std.specs.Str.{bytes_eq};
ghost use Rattle.csv.specs.Records.{fields_of};
ghost use Rattle.ato_base.specs.declared.faults.Refusal.TheVariants as refusal;
ghost use Rattle.ato_first_catalog.specs.Catalogue.{Explains, IsCatalogue, IsRead, IsRefused, IsRefusalOf, ShowsRow, ShowsRows};
ghost use Rattle.ato_first_catalog.specs.Contents.{contents_in, fault_at, first_fault};
ghost use Rattle.ato_first_catalog.specs.Limits.{most_attributes, most_rows};
ghost use Rattle.ato_first_catalog.specs.Parts.{has_part, next_fault};
ghost use Rattle.ato_first_catalog.specs.Records.{records_of};
ghost use Rattle.ato_first_catalog.specs.Rows.{part_in, row_of};
ghost use Rattle.ato_first_catalog.specs.WellMade.{IsWellMade};

use crate::cells::cell_in;
use crate::header::{Column, Layout, read_header};
use crate::parts::note_part;
use crate::records::read_records;
use crate::rows::{CatalogRow, find_fault, read_row};
use ato_base::{Fault, FaultKind, List, Place, Refusal};
use csv::ByteRecord;
use std::alloc::Global;
use std::collections::HashSet;

/// The most rows that a catalogue may have.
const MOST_ROWS: usize = 1_000;

/// The columns of a catalogue's attributes, and its rows.
#[derive(Debug, Drop)]
pub struct Catalog {
    /// The attributes in the order of the header.
    pub columns: List<Column>,
    /// The rows in their order. The first has number 1.
    pub rows: List<CatalogRow>,
}

/// The fault in a cell: row 0 is the header, and column 0 the whole row.
fn fault(alloc: Global, kind: FaultKind, row: u32, column: u32) -> Refusal
    ensures { result ≡ refusal.Fault (fault_at kind row column) }
{
    Refusal::Fault(Fault {
        kind,
        at: Place::Cell { row, column },
        other: None,
        path: List::new(alloc),
    })
}

/// Reads a row that comes after so many others, which have these parts.
#[tactic(auto, unfolding(crate::specs::Contents::row_fault))]
fn read_next<'a>(
    alloc: Global,
    layout: &Layout,
    before: usize,
    parts: &mut HashSet<&'a [u8]>,
    row: &'a ByteRecord,
) -> Result<CatalogRow, Refusal>
    requires narrow { layout.now.width ≤ 2 + most_attributes }
    requires few { before ≤ most_rows }
    ensures sound { OnOk result (next_fault layout.now before parts.old (fields_of row.now) ≡ None) }
    ensures row { IfOk result (λ made. ShowsRow made (row_of layout.now (fields_of row.now))) }
    ensures parts { OnOk result ((other : List ℕ) → has_part parts.new other
        ≡ (has_part parts.old other || bytes_eq (part_in layout.now (fields_of row.now)) other)) }
    ensures more { OnOk result (before < most_rows) }
    ensures fault { IfErr result (Explains
        (option_map (λ found. fault_at found.0 (before + 1) found.1)
        (next_fault layout.now before parts.old (fields_of row.now)))) }
{
    let number = before as u32 + 1;
    if before >= MOST_ROWS {
        return Err(fault(alloc, FaultKind::TooManyRows, number, 0));
    }
    match find_fault(layout, row) {
        Some((kind, column)) => return Err(fault(alloc, kind, number, column)),
        None => {}
    }
    if !note_part(parts, cell_in(row, layout.part))? {
        return Err(fault(alloc, FaultKind::PartTwice, number, layout.part));
    }
    Ok(read_row(alloc, layout, row)?)
}

/// Reads the rows below a header.
#[tactic(auto, using(crate::proofs::FirstFault::first_fault_end))]
fn read_rows(
    alloc: Global,
    layout: &Layout,
    records: &[ByteRecord],
) -> Result<List<CatalogRow>, Refusal>
    requires { layout.now.width ≤ 2 + most_attributes }
    ensures sound { OnOk result (first_fault layout.now [] (map fields_of records.now) ≡ None) }
    ensures rows { IfOk result (λ rows. ShowsRows rows
        (map (λ row. row_of layout.now (fields_of row)) records.now)) }
    ensures fault { IfErr result (Explains (first_fault layout.now [] (map fields_of records.now))) }
{
    let mut parts = HashSet::new(alloc);
    let mut rows = List::new(alloc);
    for (before, row) in records.iter().enumerate() {
        rows.push(read_next(alloc, layout, before, &mut parts, row)?)?;
    }
    Ok(rows)
}

/// Reads the catalogue of some records.
#[tactic(auto, unfolding(crate::specs::Contents::contents_in))]
fn from_records(alloc: Global, records: &[ByteRecord]) -> Result<Catalog, Refusal>
    ensures catalogue { IfOk result (IsRead (contents_in (map fields_of records.now))) }
    ensures fault { IfErr result (IsRefusalOf (contents_in (map fields_of records.now))) }
{
    match records {
        [] => Err(fault(alloc, FaultKind::NoHeader, 0, 0)),
        [header, rows @ ..] => match read_header(alloc, header)? {
            None => Err(fault(alloc, FaultKind::NoHeader, 0, 0)),
            Some(layout) => {
                let rows = read_rows(alloc, &layout, rows)?;
                let Layout {
                    attributes,
                    width: _,
                    part: _,
                    kind: _,
                } = layout;
                Ok(Catalog {
                    columns: attributes,
                    rows,
                })
            }
        },
    }
}

/// Reads no more records than the header, the rows that there may be, and one too many.
fn read_first(alloc: Global, bytes: &[u8], rows: usize) -> Result<Catalog, Refusal>
    requires { rows ≡ most_rows + 1 }
    ensures catalogue { IfOk result (IsCatalogue bytes.now) }
    ensures fault { IfErr result (IsRefused bytes.now) }
{
    let records = read_records(alloc, bytes, rows + 1)?;
    from_records(alloc, records.as_slice())
}

/// Reads a catalogue from the bytes of its file.
///
/// The bytes are comma-separated text. The first record is the header: `part`, `kind`, and then up to
/// eight different names of attributes. Each other record is a row; at most 1,000 may follow. A cell
/// under an attribute is empty, or digits, or digits, ` to ` and digits, with 1 to 18 digits each and
/// the first number not above the second.
///
/// The answer is the catalogue, or the first fault, row by row; the time is linear in the bytes.
pub fn read_catalog(alloc: Global, bytes: &[u8]) -> Result<Catalog, Refusal>
    ensures catalogue { IfOk result (IsCatalogue bytes.now) }
    ensures fault { IfErr result (IsRefused bytes.now) }
    ensures well_made { IfOk result IsWellMade }
{
    read_first(alloc, bytes, MOST_ROWS + 1)
}
