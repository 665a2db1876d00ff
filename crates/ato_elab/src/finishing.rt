//! What is told of a tree that is built.
ghost use Rattle.std.specs.Prelude.{◌<◌, ℕ, length, IfOk};
ghost use Rattle.ato_files.specs.Blocks.{blocks_of};
ghost use Rattle.ato_instance_tree.specs.Elaborated.{IsLoaded};
ghost use Rattle.ato_instance_tree.specs.Trees.{IsTree};
ghost use Rattle.ato_elab.specs.Entering.{IsWhole};

use crate::built::Built;
use crate::effective::effective;
use crate::frames::Given;
use crate::judging::judge;
use ato_base::NoMemory;
use ato_instance_tree::Tree;

/// The tree of an entry block that is built.
pub(crate) fn finish(given: &Given<'_>, built: Built) -> Result<Tree, NoMemory>
    ensures { IfOk result (λ tree. (entry : ℕ) → IsLoaded given.now.program.now → entry < length (blocks_of given.now.program.now.files) → IsWhole given.now entry built → IsTree given.now.program.now.files given.now.program.now.names entry tree) }
{
    let judged = judge(given.alloc, given.program, &built)?;
    let entries = effective(given.alloc, &given.program.names, &judged.assigned)?;
    Ok(Tree {
        nodes: built.nodes,
        occurrences: built.occurrences,
        effective: entries,
        first: judged.first,
    })
}
