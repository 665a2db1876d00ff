//! The problem of a part and a catalogue.
ghost use Rattle.std.specs.Prelude.{◌≡◌, ◌+◌, ◌≤◌, ◌<◌, List, ℕ, Some, None, length, drop, IfOk};
ghost use Rattle.ato_rational.specs.Rational.{◌≤ℚ◌};
ghost use Rattle.ato_first.specs.FirstForm.{is_line};
ghost use Rattle.ato_first_catalog.specs.Catalogue.{ShowsContents};
ghost use Rattle.ato_first_catalog.specs.Contents.{Contents, cell_under};
ghost use Rattle.ato_first_catalog.specs.WellMade as catalogues;
ghost use Rattle.ato_cert.specs.Problems.{IsWellMade, IsWellMadeSlot, HasAtMost};
ghost use Rattle.ato_first.specs.FirstParts as parts;
ghost use Rattle.ato_build.specs.CatalogueRows.{first_cell, row_in, rows_from};
ghost use Rattle.ato_first.specs.ShownParts.{shown_part, IsInOrder};
ghost use Rattle.ato_build.specs.Problems.{IsProblem, IsSlotOf};

use ato_base::{List, NoMemory};
use ato_cert::{Problem, Row, Slot};
use ato_first::Part;
use ato_first_catalog::{Catalog, CatalogRow, Column, whole};
use ato_frac::Frac;
use std::alloc::Global;

/// The cell in a column, counted from 0, or nothing where there is none.
fn cell_at(cells: &[Option<(Frac, Frac)>], at: usize) -> Option<(Frac, Frac)>
    ensures { result ≡ first_cell (drop at cells.now) }
{
    match cells.get(at) {
        None => None,
        Some(cell) => *cell,
    }
}

/// The range that a row has under an attribute, if it has one.
#[tactic(auto, using(crate::proofs::ProblemLemmas::under_here, crate::proofs::ProblemLemmas::under_more, crate::proofs::ProblemLemmas::under_end))]
fn cell_under(
    columns: &[Column],
    cells: &[Option<(Frac, Frac)>],
    name: &str,
) -> Option<(Frac, Frac)>
    ensures { result ≡ cell_under columns.now cells.now name.now }
{
    for (at, column) in columns.iter().enumerate() {
        if column.name.as_str() == name {
            return cell_at(cells, at);
        }
    }
    None
}

/// The candidate that a row of the catalogue is: of the part's kind, with a range under its attribute.
fn row_in(columns: &[Column], part: &Part, number: u32, row: &CatalogRow) -> Option<Row>
    ensures { result ≡ row_in columns.now part.now.kind.now part.now.attribute.now number row.now }
{
    if row.kind.as_str() != part.kind.as_str() {
        return None;
    }
    let (low, high) = cell_under(columns, row.cells.as_slice(), part.attribute.as_str())?;
    Some(Row { number, low, high })
}

/// The candidates of a part, in their order.
fn rows_of(alloc: Global, part: &Part, catalog: &Catalog) -> Result<List<Row>, NoMemory>
    requires { length catalog.now.rows ≤ 1000 }
    ensures { IfOk result (λ rows. rows ≡ rows_from catalog.now.columns part.now.kind.now part.now.attribute.now 1 catalog.now.rows) }
{
    let columns = catalog.columns.as_slice();
    let mut rows = List::new(alloc);
    for (at, row) in catalog.rows.as_slice().iter().enumerate() {
        if let Some(row) = row_in(columns, part, at as u32 + 1, row) {
            rows.push(row)?;
        }
    }
    Ok(rows)
}

/// The slot of a part: its candidates, and what is asserted of it.
fn slot_of(alloc: Global, part: &Part, catalog: &Catalog) -> Result<Slot, NoMemory>
    requires made { catalogues.IsWellMade catalog.now }
    requires order { part.now.low ≤ part.now.high }
    ensures made { IfOk result IsWellMadeSlot }
    ensures few { IfOk result (λ slot. length slot.rows ≤ 1000) }
    ensures slot { IfOk result (λ slot. (contents : Contents) → ShowsContents catalog.now contents
        → IsSlotOf contents (record { kind = part.now.kind.now; attribute = part.now.attribute.now; low = part.now.low; high = part.now.high }) slot) }
{
    Ok(Slot {
        rows: rows_of(alloc, part, catalog)?,
        low: whole(part.low),
        high: whole(part.high),
    })
}

/// The problem of a part, if there is one, and a catalogue.
pub(crate) fn problem_of(
    alloc: Global,
    part: Option<Part>,
    catalog: &Catalog,
) -> Result<Problem, NoMemory>
    requires made { catalogues.IsWellMade catalog.now }
    requires order { IsInOrder part }
    ensures made { IfOk result IsWellMade }
    ensures few { IfOk result (HasAtMost 1000) }
    ensures problem { IfOk result (λ problem. (contents : Contents) → ShowsContents catalog.now contents → IsProblem (shown_part part.entry) contents problem) }
{
    let slot = match part {
        None => None,
        Some(part) => Some(slot_of(alloc, &part, catalog)?),
    };
    Ok(Problem { slot })
}
