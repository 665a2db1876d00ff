//! The first fault of paths, with the path of its instance.
ghost use Rattle.std.specs.Prelude.{◌≡◌, IfOk};
ghost use Rattle.ato_elab.specs.Telling.{IsLate, IsFirstLate};
ghost use Rattle.ato_elab.specs.Late.{marks_from};

use crate::built::Built;
use crate::faults::Mark;
use crate::late::first_mark;
use crate::late_ground::Ground;
use crate::late_names::shown;
use ato_base::{Fault, NameTable, NoMemory, Place};
use ato_instance_tree::Late;
use std::alloc::Global;

/// The fault of a mark in the occurrence of a number.
fn told(
    alloc: Global,
    names: &NameTable,
    built: &Built,
    number: u32,
    mark: Mark,
) -> Result<Late, NoMemory>
    ensures { IfOk result (λ late. IsLate names.now built.now (number, mark) late) }
{
    let Some(entry) = built.occurrences.as_slice().get(number as usize) else {
        return Err(NoMemory);
    };
    let path = shown(alloc, names, built.nodes.as_slice(), entry.node)?;
    Ok(Late {
        occurrence: number,
        fault: Fault {
            kind: mark.kind,
            at: Place::Source(mark.at),
            other: None,
            path,
        },
    })
}

/// The first fault of paths.
pub(crate) fn late(
    alloc: Global,
    names: &NameTable,
    ground: &Ground<'_>,
) -> Result<Option<Late>, NoMemory>
    ensures { IfOk result (λ late. IsFirstLate names.now ground.now late) }
{
    match first_mark(alloc, ground)? {
        Some((number, mark)) => Ok(Some(told(alloc, names, ground.built, number, mark)?)),
        None => Ok(None),
    }
}
