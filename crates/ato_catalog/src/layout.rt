//! Reading the header into a layout.
ghost use Rattle.std.specs.Prelude.{◌≡◌, ◌≤◌, true, length, map, IfOk};
ghost use Rattle.std.specs.List.{list_all};
ghost use Rattle.std.specs.Str.{is_utf8};
ghost use Rattle.csv.specs.Records.{fields_of};
ghost use Rattle.ato_catalog.specs.Header.{columns_from, layout_of, role_of};
ghost use Rattle.ato_catalog.specs.Limits.{most_columns};

use crate::cells::{cell_at, copy_at};
use crate::header::{Column, Layout, Role, place_of, role_of};
use ato_base::{List, NoMemory};
use csv::ByteRecord;
use std::alloc::Global;

/// What stands in each column.
fn read_roles(alloc: Global, header: &ByteRecord) -> Result<List<Role>, NoMemory>
    ensures { IfOk result (λ roles. roles ≡ map role_of (fields_of header.now)) }
{
    let mut roles = List::new(alloc);
    for place in 0..header.len() {
        roles.push(role_of(cell_at(header, place)))?;
    }
    Ok(roles)
}

/// The columns of the attributes.
#[tactic(auto, using(crate::proofs::HeadingLaws::columns_step, crate::proofs::HeadingLaws::columns_pass, crate::proofs::HeadingLaws::columns_end))]
fn read_attributes(alloc: Global, header: &ByteRecord) -> Result<List<Column>, NoMemory>
    requires narrow { length (fields_of header.now) ≤ most_columns }
    requires text { list_all is_utf8 (fields_of header.now) ≡ true }
    ensures { IfOk result (λ columns. columns ≡ columns_from 1 (fields_of header.now)) }
{
    let mut columns = List::new(alloc);
    for place in 0..header.len() {
        match role_of(cell_at(header, place)) {
            Role::Attribute => columns.push(Column {
                name: copy_at(alloc, header, place)?,
                at: place as u32 + 1,
            })?,
            _ => {}
        }
    }
    Ok(columns)
}

/// The layout of a header.
pub(crate) fn read_layout(alloc: Global, header: &ByteRecord) -> Result<Layout, NoMemory>
    requires narrow { length (fields_of header.now) ≤ most_columns }
    requires text { list_all is_utf8 (fields_of header.now) ≡ true }
    ensures layout { IfOk result (λ layout. layout ≡ layout_of (fields_of header.now)) }
    ensures part { IfOk result (λ layout. layout.part ≤ most_columns) }
{
    Ok(Layout {
        roles: read_roles(alloc, header)?,
        part: place_of(header, b"part".as_slice()),
        kind: place_of(header, b"kind".as_slice()),
        package: place_of(header, b"package".as_slice()),
        footprint: place_of(header, b"footprint".as_slice()),
        price: place_of(header, b"price".as_slice()),
        attributes: read_attributes(alloc, header)?,
    })
}
