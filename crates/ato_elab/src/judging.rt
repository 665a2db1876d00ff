//! The assignments that count in a tree that is built, and the first fault of its paths.
ghost use Rattle.std.specs.Prelude.{◌≡◌, ℕ, IfOk};
ghost use Rattle.ato_files.specs.Programs.{AreBlocks, NamesDiffer};
ghost use Rattle.ato_elab.specs.Judging.{IsJudged};
ghost use Rattle.ato_elab.specs.Standing.{IsReady};

use crate::assigned::Assigned;
use crate::built::Built;
use crate::finding_pins::Pins;
use crate::late_first::first_fault;
use crate::late_listing::stmts_of;
use ato_base::NoMemory;
use ato_files::Program;
use ato_instance_tree::Late;
use std::alloc::Global;

/// What is found of a tree that is built.
#[derive(Drop)]
pub(crate) struct Judged {
    /// The assignments that count.
    pub(crate) assigned: Assigned,
    /// The first fault of paths.
    pub(crate) first: Option<Late>,
}

/// The assignments that count, and the first fault of paths.
pub(crate) fn judge(alloc: Global, program: &Program, built: &Built) -> Result<Judged, NoMemory>
    ensures { IfOk result (λ judged. (entry : ℕ) → AreBlocks program.now.files program.now.blocks → NamesDiffer program.now.names
        → IsReady program.now.files program.now.names entry built.now → IsJudged program.now.files program.now.names entry built.now judged) }
{
    let stmts = stmts_of(alloc, program, built.occurrences.as_slice())?;
    let assigned = Assigned::of(alloc, built, stmts.as_slice())?;
    let pins = Pins::of(alloc, program, built.nodes.as_slice())?;
    let first = first_fault(alloc, program, built, stmts.as_slice(), &pins, &assigned)?;
    Ok(Judged { assigned, first })
}
