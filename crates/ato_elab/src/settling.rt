//! The type of a member: what `new` names, or the last replacement.
ghost use Rattle.std.specs.Prelude.{◌≡◌, ◌==◌, map, slice_get, None, Some, IfOk, IfErr, MatchOption};
ghost use Rattle.std.specs.List.{list_any};
ghost use Rattle.ato_files.specs.Lineages.{descends};
ghost use Rattle.ato_files.specs.Programs.{AreBlocks};
ghost use Rattle.ato_elab.specs.Changes.{seen};
ghost use Rattle.ato_elab.specs.Settling.{LeadsTo, Passes, StopsAt, Strays};
ghost use Rattle.ato_elab.specs.Waiting.{end, ends};

use crate::changes::Change;
use ato_base::Span;
use ato_files::{BlockInfo, Program};

/// Whether one number stands among others.
fn among(numbers: &[u32], number: u32) -> bool
    ensures { result ≡ list_any (λ b. b == number) numbers.now }
{
    numbers.iter().any(|one| *one == number)
}

/// What is kept of a block.
pub(crate) fn info_at(blocks: &[BlockInfo], number: usize) -> Option<&BlockInfo>
    ensures { MatchOption result (slice_get blocks.now number ≡ None) (λ info. slice_get blocks.now number ≡ Some info.now) }
{
    blocks.get(number)
}

/// Whether a type is another one or a descendant of it. It takes no memory.
pub fn descends(program: &Program, block: u32, other: u32) -> bool
    ensures { AreBlocks program.now.files program.now.blocks → result ≡ descends program.now.files block other }
{
    match info_at(program.blocks.as_slice(), block as usize) {
        Some(info) => among(info.lineage.as_slice(), other),
        None => block == other,
    }
}

/// The type behind one more replacement, if it ends here; or where its name stands, which names no descendant of the type so far.
fn step(program: &Program, from: u32, change: &Change<'_>) -> Result<u32, Span>
    ensures passes { IfOk result (λ next. AreBlocks program.now.files program.now.blocks → Passes program.now.files from (end (seen change.now)) next) }
    ensures strays { IfErr result (λ at. AreBlocks program.now.files program.now.blocks → Strays program.now.files from (end (seen change.now)) at) }
{
    if change.rest.len() > 0 {
        return Ok(from);
    }
    if descends(program, change.to, from) {
        Ok(change.to)
    } else {
        Err(change.named.at)
    }
}

/// The type to which the replacements that end here lead from a type on; or where the name of the first one stands that names no
/// descendant of the type so far.
pub(crate) fn settle(program: &Program, from: u32, changes: &[Change<'_>]) -> Result<u32, Span>
    ensures leads { IfOk result (λ to. AreBlocks program.now.files program.now.blocks → LeadsTo program.now.files from (ends (map seen changes.now)) to) }
    ensures stray { IfErr result (λ at. AreBlocks program.now.files program.now.blocks → StopsAt program.now.files from (ends (map seen changes.now)) at) }
{
    let mut so_far = from;
    for change in changes {
        match step(program, so_far, change) {
            Ok(next) => so_far = next,
            Err(at) => return Err(at),
        }
    }
    Ok(so_far)
}
