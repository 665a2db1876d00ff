//! The rows of a catalogue, and what is wrong with one.
ghost use Rattle.std.specs.Prelude.{◌≡◌, ◌+◌, ◌≤◌, [], true, length, get_or, map, IfOk, IfNone};
ghost use Rattle.std.specs.List.{list_all};
ghost use Rattle.std.specs.Str.{is_utf8};
ghost use Rattle.csv.specs.Records.{fields_of};
ghost use Rattle.ato_first_catalog.specs.Catalogue.{ShowsCells, ShowsRow};
ghost use Rattle.ato_first_catalog.specs.Limits.{most_attributes};
ghost use Rattle.ato_first_catalog.specs.Ranges.{range_of};
ghost use Rattle.ato_first_catalog.specs.Rows.{bad_column, cell_in, cells_fault, is_bad_cell, is_whole, row_of};

use crate::cells::{cell_at, cell_in, is_text, text_in};
use crate::fractions::read_cell;
use crate::header::{Column, Layout};
use crate::ranges::read_range;
use ato_base::{FaultKind, List, NoMemory, Text};
use ato_frac::{Coin, Frac};
use csv::ByteRecord;
use std::alloc::Global;

/// A row of a catalogue. Rows are numbered from 1, the header left out.
#[derive(Debug, Drop)]
pub struct CatalogRow {
    /// The part's name, which no other row has.
    pub part: Text,
    /// The kind of the part.
    pub kind: Text,
    /// The part's package. It is empty where there is no such column.
    pub package: Text,
    /// The part's footprint. It is empty where there is no such column.
    pub footprint: Text,
    /// The price of one part, where it is known.
    pub price: Option<Coin>,
    /// For each attribute column the low and the high end of the range that the part has, if it has one.
    pub cells: List<Option<(Frac, Frac)>>,
}

/// Whether a record has as many cells as the header, all of them UTF-8.
fn is_whole(width: usize, row: &ByteRecord) -> bool
    ensures { result ≡ is_whole width (fields_of row.now) }
{
    row.len() == width && is_text(row)
}

/// Whether a cell is empty that may not be, or not what its column asks for.
fn is_bad_cell(layout: &Layout, column: u32, cell: &[u8]) -> bool
    ensures { result ≡ is_bad_cell layout.now column cell.now }
{
    if column == layout.part || column == layout.kind {
        cell.len() == 0
    } else {
        cell.len() != 0 && read_range(cell).is_none()
    }
}

/// The first column with a bad cell.
#[tactic(auto, using(crate::proofs::CellLaws::bad_column_more, crate::proofs::CellLaws::bad_column_here, crate::proofs::CellLaws::bad_column_end))]
fn bad_column(layout: &Layout, row: &ByteRecord) -> Option<u32>
    requires { length (fields_of row.now) ≤ 2 + most_attributes }
    ensures { result ≡ bad_column layout.now 1 (fields_of row.now) }
{
    for place in 0..row.len() {
        let column = place as u32 + 1;
        if is_bad_cell(layout, column, cell_at(row, place)) {
            return Some(column);
        }
    }
    None
}

/// What is wrong with the cells of a record, and in which column.
#[tactic(auto, unfolding(crate::specs::Rows::cells_fault))]
pub(crate) fn find_fault(layout: &Layout, row: &ByteRecord) -> Option<(FaultKind, u32)>
    requires { layout.now.width ≤ 2 + most_attributes }
    ensures fault { result ≡ cells_fault layout.now (fields_of row.now) }
    ensures text { IfNone result (list_all is_utf8 (fields_of row.now) ≡ true) }
{
    if !is_whole(layout.width, row) {
        return Some((FaultKind::BadRow, 0));
    }
    let column = bad_column(layout, row)?;
    Some((FaultKind::BadCell, column))
}

/// The ranges under the attributes.
fn read_cells(
    alloc: Global,
    attributes: &[Column],
    row: &ByteRecord,
) -> Result<List<Option<(Frac, Frac)>>, NoMemory>
    ensures { IfOk result (λ cells. ShowsCells cells
        (map (λ column. range_of (cell_in (fields_of row.now) column.at)) attributes.now)) }
{
    let mut cells = List::new(alloc);
    for column in attributes {
        cells.push(read_cell(cell_in(row, column.at)))?;
    }
    Ok(cells)
}

/// The row of a record.
pub(crate) fn read_row(
    alloc: Global,
    layout: &Layout,
    row: &ByteRecord,
) -> Result<CatalogRow, NoMemory>
    requires { list_all is_utf8 (fields_of row.now) ≡ true }
    ensures { IfOk result (λ made. ShowsRow made (row_of layout.now (fields_of row.now))) }
{
    Ok(CatalogRow {
        part: text_in(alloc, row, layout.part)?,
        kind: text_in(alloc, row, layout.kind)?,
        package: Text::new(alloc),
        footprint: Text::new(alloc),
        price: None,
        cells: read_cells(alloc, layout.attributes.as_slice(), row)?,
    })
}
