//! The parts of a net list.
ghost use Rattle.std.specs.Prelude.{◌≡◌, IfOk};
ghost use Rattle.ato_links.specs.Nets.{comp_of};
ghost use Rattle.ato_netlists.specs.Comps.{comps_by};

use crate::parts::Part;
use ato_base::{Comp, List, NoMemory, PartRow, Text};
use std::alloc::Global;

/// A copy of a text.
fn copied(alloc: Global, text: &Text) -> Result<Text, NoMemory>
    ensures { IfOk result (λ copy. copy ≡ text.now) }
{
    Text::copy(alloc, text.as_str())
}

/// A part by its row: its value is the picked part, or else the name of its type.
fn comp(alloc: Global, part: Part, row: &PartRow) -> Result<Comp, NoMemory>
    ensures { IfOk result (λ comp. comp ≡ comp_of part.slot row.now) }
{
    let value = if part.slot { &row.part } else { &row.kind_name };
    Ok(Comp {
        designator: copied(alloc, &row.designator)?,
        value: copied(alloc, value)?,
        footprint: copied(alloc, &row.footprint)?,
        path: copied(alloc, &row.path)?,
    })
}

/// Parts by their rows.
pub(crate) fn comps(alloc: Global, parts: &[Part], rows: &[PartRow]) -> Result<List<Comp>, NoMemory>
    ensures { IfOk result (λ comps. comps ≡ comps_by parts.now rows.now) }
{
    let mut found = List::new(alloc);
    for (part, row) in parts.iter().zip(rows.iter()) {
        found.push(comp(alloc, *part, row)?)?;
    }
    Ok(found)
}
