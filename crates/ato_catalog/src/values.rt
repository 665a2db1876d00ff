//! The cells of a row, each read as its column asks for.
ghost use Rattle.std.specs.Prelude.{◌≡◌, true};
ghost use Rattle.std.specs.Str.{is_utf8};
ghost use Rattle.ato_catalog.specs.Reads.{ReadsCell};

use crate::header::Role;
use crate::memo::Memo;
use crate::prices::read_price;
use ato_units::Quantity;

/// What a cell is.
#[derive(Clone, Copy)]
pub(crate) enum Cell {
    /// It is not what its column asks for.
    Bad,
    /// It is good, and no attribute's.
    Plain,
    /// It is an attribute's: empty, or a quantity.
    Value(Option<Quantity>),
}

/// An attribute's cell.
fn read_value<'a>(memo: &mut Memo<'a>, cell: &'a [u8]) -> Cell
    requires { is_utf8 cell.now ≡ true }
    ensures { ReadsCell Role.Attribute cell.now result }
{
    if cell.len() == 0 {
        return Cell::Value(None);
    }
    match memo.read(cell) {
        Some(quantity) => Cell::Value(Some(quantity)),
        None => Cell::Bad,
    }
}

/// A cell that may not be empty.
fn read_named(cell: &[u8]) -> Cell
    ensures part { ReadsCell Role.Part cell.now result }
    ensures kind { ReadsCell Role.Kind cell.now result }
{
    if cell.len() == 0 {
        Cell::Bad
    } else {
        Cell::Plain
    }
}

/// The cell of a price.
fn read_priced(cell: &[u8]) -> Cell
    ensures { ReadsCell Role.Price cell.now result }
{
    if cell.len() == 0 || read_price(cell).is_some() {
        Cell::Plain
    } else {
        Cell::Bad
    }
}

/// A cell of a column, which is UTF-8.
pub(crate) fn read_cell<'a>(memo: &mut Memo<'a>, role: Role, cell: &'a [u8]) -> Cell
    requires { is_utf8 cell.now ≡ true }
    ensures { ReadsCell role cell.now result }
{
    match role {
        Role::Part => read_named(cell),
        Role::Kind => read_named(cell),
        Role::Package => Cell::Plain,
        Role::Footprint => Cell::Plain,
        Role::Price => read_priced(cell),
        Role::Remark => Cell::Plain,
        Role::Attribute => read_value(memo, cell),
    }
}
