//! The first fault of a tree's paths, from the tree and the assignments that count.
ghost use Rattle.std.specs.Prelude.{◌≡◌, ℕ, map, IfOk};
ghost use Rattle.ato_files.specs.Programs.{NamesDiffer};
ghost use Rattle.ato_instance_tree.specs.Order.{occurrences};
ghost use Rattle.ato_instance_tree.specs.PathFaults.{keys_of, path_fault};
ghost use Rattle.ato_instance_tree.specs.Trees.{first_said};
ghost use Rattle.ato_elab.specs.Landing.{AreAssigned, IsGround};
ghost use Rattle.ato_elab.specs.Pins.{ArePins};
ghost use Rattle.ato_elab.specs.Standing.{IsReady};

use crate::assigned::Assigned;
use crate::built::Built;
use crate::finding_pins::Pins;
use crate::late_faults::late;
use crate::late_ground::Ground;
use ato_ast::Stmt;
use ato_base::NoMemory;
use ato_files::Program;
use ato_instance_tree::Late;
use std::alloc::Global;

/// What is known of a tree, with the names that tell parts and designators.
fn ground_of<'a>(
    program: &'a Program,
    built: &'a Built,
    stmts: &'a [&'a Stmt],
    pins: &'a Pins<'a>,
    assigned: &'a Assigned,
) -> Ground<'a>
    ensures files { result.files.now ≡ program.now.files }
    ensures right { (entry : ℕ) → IsReady program.now.files program.now.names entry built.now → ArePins program.now.files built.now.nodes pins.now
        → map (λ s. s.now) stmts.now ≡ map (λ o. o.at.stmt) (occurrences program.now.files entry) → AreAssigned program.now.files entry assigned.now
        → IsGround program.now.names entry result }
{
    Ground {
        files: program.files.as_slice(),
        built,
        stmts,
        pins,
        assigned,
        kind: program.names.find("kind"),
        prefix: program.names.find("designator_prefix"),
    }
}

/// The first fault of paths, where the types' pins and the assignments that count are known.
pub(crate) fn first_fault(
    alloc: Global,
    program: &Program,
    built: &Built,
    stmts: &[&Stmt],
    pins: &Pins<'_>,
    assigned: &Assigned,
) -> Result<Option<Late>, NoMemory>
    ensures { IfOk result (λ first. (entry : ℕ) → NamesDiffer program.now.names → IsReady program.now.files program.now.names entry built.now
        → ArePins program.now.files built.now.nodes pins.now → map (λ s. s.now) stmts.now ≡ map (λ o. o.at.stmt) (occurrences program.now.files entry)
        → AreAssigned program.now.files entry assigned.now → first_said first ≡ path_fault program.now.files entry (keys_of program.now.names)) }
{
    let ground = ground_of(program, built, stmts, pins, assigned);
    late(alloc, &program.names, &ground)
}
