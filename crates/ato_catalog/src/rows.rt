//! The rows of a catalogue.
ghost use Rattle.std.specs.Prelude.{◌≡◌, ◌≤◌, true, length, IfOk};
ghost use Rattle.std.specs.List.{list_all};
ghost use Rattle.std.specs.Str.{is_utf8};
ghost use Rattle.csv.specs.Records.{fields_of};
ghost use Rattle.ato_catalog.specs.Limits.{most_columns};
ghost use Rattle.ato_catalog.specs.Reads.{ReadsCells};
ghost use Rattle.ato_catalog.specs.Rows.{AreValues, IsRow, is_whole};

use crate::cells::{cell_at, copy_at, is_text};
use crate::header::{Layout, Role};
use crate::memo::Memo;
use crate::prices::read_price;
use crate::values::{Cell, read_cell};
use ato_base::{List, NoMemory, Text};
use ato_frac::Coin;
use ato_units::Quantity;
use csv::ByteRecord;
use std::alloc::Global;

/// A row of a catalogue. Rows are numbered from 1, the header left out.
#[derive(Debug, Drop)]
pub struct CatalogRow {
    /// The part's name, which no other row has.
    pub part: Text,
    /// The kind of the part.
    pub kind: Text,
    /// The part's package. It is empty where there is no such column.
    pub package: Text,
    /// The part's footprint. It is empty where there is no such column.
    pub footprint: Text,
    /// The price of one part, where it is known.
    pub price: Option<Coin>,
    /// For each attribute column the range of values that the part has, if it has one.
    pub cells: List<Option<Quantity>>,
}

/// What the attribute cells of a row hold.
#[derive(Drop)]
pub(crate) enum RowValues {
    /// All cells of the row are good, and these are the values.
    Good(List<Option<Quantity>>),
    /// The first bad cell stands in this column, counted from 1.
    Bad(u32),
}

/// Whether a record has as many cells as the header, all of them UTF-8.
pub(crate) fn is_whole(layout: &Layout, row: &ByteRecord) -> bool
    ensures { result ≡ is_whole layout.now (fields_of row.now) }
{
    row.len() == layout.roles.len() && is_text(row)
}

/// The values of a row's attributes, or the first column with a bad cell. Room is taken at once for so
/// many values as there are attributes.
pub(crate) fn read_values<'a>(
    alloc: Global,
    memo: &mut Memo<'a>,
    attributes: usize,
    roles: &[Role],
    row: &'a ByteRecord,
) -> Result<RowValues, NoMemory>
    requires narrow { length roles.now ≤ most_columns }
    requires wide { length (fields_of row.now) ≡ length roles.now }
    requires text { list_all is_utf8 (fields_of row.now) ≡ true }
    ensures { IfOk result (ReadsCells roles.now (fields_of row.now)) }
{
    let mut values = List::with_capacity(alloc, attributes)?;
    for (place, role) in roles.iter().enumerate() {
        match read_cell(memo, *role, cell_at(row, place)) {
            Cell::Bad => return Ok(RowValues::Bad(place as u32 + 1)),
            Cell::Plain => {}
            Cell::Value(value) => values.push(value)?,
        }
    }
    Ok(RowValues::Good(values))
}

/// The row of a record whose values were read.
pub(crate) fn read_row(
    alloc: Global,
    layout: &Layout,
    row: &ByteRecord,
    values: List<Option<Quantity>>,
) -> Result<CatalogRow, NoMemory>
    requires text { list_all is_utf8 (fields_of row.now) ≡ true }
    requires values { AreValues layout.now.roles (fields_of row.now) values }
    ensures { IfOk result (IsRow layout.now (fields_of row.now)) }
{
    Ok(CatalogRow {
        part: copy_at(alloc, row, layout.part)?,
        kind: copy_at(alloc, row, layout.kind)?,
        package: copy_at(alloc, row, layout.package)?,
        footprint: copy_at(alloc, row, layout.footprint)?,
        price: read_price(cell_at(row, layout.price)),
        cells: values,
    })
}
