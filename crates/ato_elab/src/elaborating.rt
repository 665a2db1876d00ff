//! The tree of a project.
ghost use Rattle.std.specs.Prelude.{◌≡◌, [], IfOk, IfErr};
ghost use Rattle.ato_base.specs.declared.faults.FaultKind.TheVariants as kinds;
ghost use Rattle.ato_base.specs.declared.faults.Refusal.TheVariants as refusal;
ghost use Rattle.ato_base.specs.declared.places.Place.TheVariants as place;
ghost use Rattle.ato_files.specs.Meant.{AreMeanings};
ghost use Rattle.ato_instance_tree.specs.Elaborated.{IsElaborated, IsLoaded, IsRefused};
ghost use Rattle.ato_instance_tree.specs.TreeFaults.{fault_in, most_in_tree};
ghost use Rattle.ato_elab.specs.Building.{limits_of};

use crate::entry::entry_block;
use crate::finishing::finish;
use crate::frames::{Counts, Given};
use crate::turning::build;
use ato_base::{Fault, FaultKind, List, Place, Refusal};
use ato_files::Program;
use ato_instance_tree::Tree;
use std::alloc::Global;

/// The fault of a project whose entry file has no block of the name.
fn unknown(alloc: Global) -> Refusal
    ensures { result ≡ refusal.Fault (fault_in [] kinds.NameUnknown (place.Word 1)) }
{
    Refusal::Fault(Fault {
        kind: FaultKind::NameUnknown,
        at: Place::Word(1),
        other: None,
        path: List::new(alloc),
    })
}

/// How many nodes and occurrences the tree of a project may have.
fn most() -> Counts
    ensures { limits_of result ≡ most_in_tree }
{
    Counts {
        nodes: 262_144,
        occurrences: 1_048_576,
    }
}

/// The tree of the entry file's block of a name, within the given limits.
#[tactic(auto, using(crate::proofs::ElaborateLaws::elaborated, crate::proofs::ElaborateLaws::refused, crate::proofs::ElaborateLaws::nameless))]
fn tree_within(given: &Given<'_>, name: &str) -> Result<Tree, Refusal>
    ensures tree { IfOk result (λ tree. IsLoaded given.now.program.now → AreMeanings given.now.program.now.files given.now.meanings.now → IsElaborated (limits_of given.now.most) given.now.program.now name.now tree) }
    ensures refused { IfErr result (λ refusal. IsLoaded given.now.program.now → AreMeanings given.now.program.now.files given.now.meanings.now → IsRefused (limits_of given.now.most) given.now.program.now name.now refusal) }
{
    match entry_block(given.program, name) {
        Some(block) => {
            let built = build(given, block)?;
            let tree = finish(given, built)?;
            Ok(tree)
        }
        None => Err(unknown(given.alloc)),
    }
}

/// The instance tree of the block of this name, one of the entry file's own.
///
/// A tree may have faults of paths; the first of them stands in it, as [`Tree::first`]. The work is linear in the nodes and occurrences and in
/// what the types of the program hold.
///
/// # Errors
///
/// The fault of the tree that stands: there is no such block, an instance would contain itself, a replacement is no descendant, or the tree
/// is larger than 262,144 nodes or 1,048,576 occurrences; each with its place and the path of the instance. Or memory ran out.
pub fn elaborate(alloc: Global, program: &Program, entry: &str) -> Result<Tree, Refusal>
    requires { IsLoaded program.now }
    ensures tree { IfOk result (λ tree. IsElaborated most_in_tree program.now entry.now tree) }
    ensures refused { IfErr result (λ refusal. IsRefused most_in_tree program.now entry.now refusal) }
{
    let meanings = program.meanings(alloc)?;
    let given = Given {
        alloc,
        program,
        meanings: &meanings,
        most: most(),
    };
    tree_within(&given, entry)
}
