//! The first fault of paths.
ghost use Rattle.std.specs.Prelude.{◌≡◌, map, IfOk};
ghost use Rattle.ato_elab.specs.Late.{numbered_mark, marks_from};

use crate::faults::Mark;
use crate::late_ground::Ground;
use crate::late_stmts::mark_in;
use ato_ast::Stmt;
use ato_base::NoMemory;
use std::alloc::Global;

/// A number as an u32, if it is not too large.
pub(crate) fn small(number: usize) -> Result<u32, NoMemory>
    ensures { IfOk result (λ same. same ≡ number) }
{
    if number > 0xffff_ffff {
        return Err(NoMemory);
    }
    Ok(number as u32)
}

/// The first mark of the occurrence of a number, with the number.
#[tactic(auto, unfolding(crate::specs::Late::numbered_mark))]
fn numbered_mark(
    alloc: Global,
    ground: &Ground<'_>,
    number: usize,
    stmt: &Stmt,
) -> Result<Option<(u32, Mark)>, NoMemory>
    ensures { IfOk result (λ found. found ≡ numbered_mark ground.now number stmt.now) }
{
    let number = small(number)?;
    match ground.built.occurrences.as_slice().get(number as usize) {
        Some(entry) => match mark_in(alloc, ground, entry.node, number, stmt)? {
            Some(mark) => Ok(Some((number, mark))),
            None => Ok(None),
        },
        None => Ok(None),
    }
}

/// The first mark of all occurrences, with the number of its occurrence.
pub(crate) fn first_mark(
    alloc: Global,
    ground: &Ground<'_>,
) -> Result<Option<(u32, Mark)>, NoMemory>
    ensures { IfOk result (λ found. found ≡ marks_from ground.now 0 (map (λ s. s.now) ground.now.stmts.now)) }
{
    for (number, stmt) in ground.stmts.iter().enumerate() {
        match numbered_mark(alloc, ground, number, stmt)? {
            Some(found) => return Ok(Some(found)),
            None => {}
        }
    }
    Ok(None)
}
