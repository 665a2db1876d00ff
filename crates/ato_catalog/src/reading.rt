//! Reading a catalogue: the records, the header, and then row by row.
ghost use Rattle.std.specs.Prelude.{ℕ, List, ◌≡◌, ◌<◌, ◌≤◌, ◌+◌, ◌||◌, ◌∷◌, [], length, map, IfOk, IfErr, IsErrAnd, OnOk, MatchResult};
ghost use Rattle.std.specs.Str.{bytes_eq};
ghost use Rattle.csv.specs.Records.{fields_of};
ghost use Rattle.ato_base.specs.declared.faults.Fault.{Fault};
ghost use Rattle.ato_base.specs.declared.faults.Refusal.TheVariants as refusal;
ghost use Rattle.ato_catalog.specs.Catalogue.{AreRows, HasFault, IsCatalogue, IsFault, IsFaultIn, IsFirstFault, IsReadIn, IsRefusalBy};
ghost use Rattle.ato_catalog.specs.HeaderFaults.{fault_at};
ghost use Rattle.ato_catalog.specs.Limits.{most_columns, most_rows};
ghost use Rattle.ato_catalog.specs.Parts.{has_part};
ghost use Rattle.ato_catalog.specs.Rows.{IsRow, IsSound, part_in};
ghost use Rattle.ato_catalog.specs.WellMade.{IsWellMade};

use crate::cells::cell_at;
use crate::header::{Column, Layout, find_header_fault};
use crate::layout::read_layout;
use crate::memo::Memo;
use crate::parts::note_part;
use crate::records::read_records;
use crate::rows::{CatalogRow, RowValues, is_whole, read_row, read_values};
use ato_base::{Fault, FaultKind, List, Place, Refusal};
use csv::ByteRecord;
use std::alloc::Global;
use std::collections::HashSet;

/// The most rows that a catalogue may have.
const MOST_ROWS: usize = 65_536;

/// The columns of a catalogue's attributes, and its rows.
#[derive(Debug, Drop)]
pub struct Catalog {
    /// The attributes in the order of the header.
    pub columns: List<Column>,
    /// The rows in their order. The first has number 1.
    pub rows: List<CatalogRow>,
}

/// The fault in a cell: row 0 is the header, and column 0 the whole row.
fn fault(alloc: Global, kind: FaultKind, row: u32, column: u32) -> Refusal
    ensures { result ≡ refusal.Fault (fault_at kind row column) }
{
    Refusal::Fault(Fault {
        kind,
        at: Place::Cell { row, column },
        other: None,
        path: List::new(alloc),
    })
}

/// Reads a row that comes after so many others, which have these parts.
fn read_next<'a>(
    alloc: Global,
    layout: &Layout,
    most: usize,
    before: usize,
    memo: &mut Memo<'a>,
    parts: &mut HashSet<&'a [u8]>,
    row: &'a ByteRecord,
) -> Result<CatalogRow, Refusal>
    requires most { most ≡ most_rows }
    requires narrow { length layout.now.roles ≤ most_columns }
    requires part { layout.now.part ≤ most_columns }
    requires few { before ≤ most_rows }
    ensures sound { OnOk result (IsSound layout.now before (has_part parts.old (part_in layout.now (fields_of row.now))) (fields_of row.now)) }
    ensures row { IfOk result (IsRow layout.now (fields_of row.now)) }
    ensures parts { OnOk result ((other : List ℕ) → has_part parts.new other
        ≡ (has_part parts.old other || bytes_eq (part_in layout.now (fields_of row.now)) other)) }
    ensures fault { IfErr result (IsRefusalBy (HasFault layout.now before
        (has_part parts.old (part_in layout.now (fields_of row.now))) (fields_of row.now))) }
{
    let number = before as u32 + 1;
    if before >= most {
        return Err(fault(alloc, FaultKind::TooManyRows, number, 0));
    }
    if !is_whole(layout, row) {
        return Err(fault(alloc, FaultKind::BadRow, number, 0));
    }
    let attributes = layout.attributes.len();
    let values = match read_values(alloc, memo, attributes, layout.roles.as_slice(), row)? {
        RowValues::Good(values) => values,
        RowValues::Bad(column) => return Err(fault(alloc, FaultKind::BadCell, number, column)),
    };
    if !note_part(parts, cell_at(row, layout.part))? {
        let column = layout.part as u32 + 1;
        return Err(fault(alloc, FaultKind::PartTwice, number, column));
    }
    Ok(read_row(alloc, layout, row, values)?)
}

/// Reads the rows below a header.
fn read_rows(
    alloc: Global,
    layout: &Layout,
    most: usize,
    records: &[ByteRecord],
) -> Result<List<CatalogRow>, Refusal>
    requires most { most ≡ most_rows }
    requires narrow { length layout.now.roles ≤ most_columns }
    requires part { layout.now.part ≤ most_columns }
    ensures rows { IfOk result (AreRows layout.now [] (map fields_of records.now)) }
    ensures fault { IfErr result (IsRefusalBy (IsFirstFault layout.now [] (map fields_of records.now))) }
{
    let mut memo = Memo::new(alloc)?;
    let mut parts = HashSet::new(alloc);
    let mut rows = List::with_capacity(alloc, records.len())?;
    for (before, row) in records.iter().enumerate() {
        rows.push(read_next(alloc, layout, most, before, &mut memo, &mut parts, row)?)?;
    }
    Ok(rows)
}

/// Reads the catalogue of a header and the records below it.
fn read_below(
    alloc: Global,
    most: usize,
    header: &ByteRecord,
    rows: &[ByteRecord],
) -> Result<Catalog, Refusal>
    requires most { most ≡ most_rows }
    ensures catalogue { IfOk result (IsReadIn (fields_of header.now ∷ map fields_of rows.now)) }
    ensures fault { IfErr result (IsRefusalBy (IsFaultIn (fields_of header.now ∷ map fields_of rows.now))) }
{
    match find_header_fault(header) {
        Some((kind, column)) => return Err(fault(alloc, kind, 0, column)),
        None => {}
    }
    let layout = read_layout(alloc, header)?;
    let rows = read_rows(alloc, &layout, most, rows)?;
    let Layout {
        attributes,
        roles: _,
        part: _,
        kind: _,
        package: _,
        footprint: _,
        price: _,
    } = layout;
    Ok(Catalog {
        columns: attributes,
        rows,
    })
}

/// Reads the catalogue of some records, of which the first is to be the header.
fn from_records(alloc: Global, most: usize, records: &[ByteRecord]) -> Result<Catalog, Refusal>
    requires { most ≡ most_rows }
    ensures catalogue { IfOk result (IsReadIn (map fields_of records.now)) }
    ensures fault { IfErr result (IsRefusalBy (IsFaultIn (map fields_of records.now))) }
{
    match records {
        [] => Err(fault(alloc, FaultKind::NoHeader, 0, 0)),
        [header, rows @ ..] => read_below(alloc, most, header, rows),
    }
}

/// Reads no more records than the header, the rows that there may be, and one too many.
fn read_first(alloc: Global, bytes: &[u8], most: usize) -> Result<Catalog, Refusal>
    requires { most ≡ most_rows }
    ensures catalogue { IfOk result (IsCatalogue bytes.now) }
    ensures fault { IfErr result (IsRefusalBy (IsFault bytes.now)) }
{
    let records = read_records(alloc, bytes, most + 2)?;
    from_records(alloc, most, records.as_slice())
}

/// Reads a catalogue from the bytes of its file.
///
/// The bytes are comma-separated text, behind a byte order mark or none. The first record is the
/// header, of at most 64 columns: `part` and `kind`, and any of `package`, `footprint`, `price`,
/// remarks, which begin with `#` and whose cells are not read, and attributes, which are all others.
/// Each other record is a row; at most 65,536 may follow. A cell under an attribute is empty, or a
/// quantity as `ato_units` reads it; a price is empty, or digits of a number below 2^64.
///
/// The answer is the catalogue, or the first fault: of the header in row 0, and then row by row, of
/// the number of rows, of the row as a whole, of its cells by column, and of a part that an earlier row
/// has. The time is linear in the bytes, and all rows are held in memory. Of the texts of quantities that
/// were read before, at most 4,096 are kept with what they are, and not read again.
#[tactic(auto, unfolding(crate::specs::Limits::most_rows))]
pub fn read_catalog(alloc: Global, bytes: &[u8]) -> Result<Catalog, Refusal>
    ensures catalogue { IfOk result (IsCatalogue bytes.now) }
    ensures fault { IfErr result (IsRefusalBy (IsFault bytes.now)) }
    ensures given { (catalog : Catalog) → IsCatalogue bytes.now catalog → MatchResult result (λ read. read ≡ catalog) (λ e. e ≡ refusal.NoMemory) }
    ensures stands { (found : Fault) → IsFault bytes.now found → IsErrAnd result (IsRefusalBy (λ fault. fault ≡ found)) }
    ensures well_made { IfOk result IsWellMade }
{
    read_first(alloc, bytes, MOST_ROWS)
}
