//! The search for the first good candidate.
ghost use Rattle.std.specs.Prelude.{◌≡◌, ◌≤◌, [], ◌∷◌, IfOk, MatchOption};
ghost use Rattle.std.specs.List.{All};
ghost use Rattle.ato_cert.specs.Problems.{IsWellMade, IsWellMadeSlot, HasAtMost};
ghost use Rattle.ato_cert.specs.Justified.{LiesInTarget};
ghost use Rattle.ato_search.specs.Searching.{IsFirstInTarget, IsDecision};
ghost use Rattle.ato_cert.specs.Valid.{IsValid};
ghost use Rattle.ato_search.specs.Decides.{Decides};
ghost use Rattle.ato_cert.specs.declared.cert.BoxTree.TheVariants.{Holds};
ghost use Rattle.ato_cert.specs.declared.cert.Proof.TheVariants.{Built};

use crate::refuting::refute;
use ato_base::{List, NoMemory};
use ato_cert::{BoxTree, Cert, Problem, Proof, Slot, Verdict};
use std::alloc::Global;

/// The number of the first row whose range lies in the target.
fn first_in_target(slot: &Slot) -> Option<u32>
    ensures { MatchOption result
        (All (λ row. ¬ LiesInTarget slot.now row) slot.now.rows)
        (IsFirstInTarget slot.now) }
{
    for row in slot.rows.as_slice() {
        if slot.has_in_target(row) {
            return Some(row.number);
        }
    }
    None
}

/// The proof with a pick, whose every check holds.
fn built(alloc: Global, number: u32) -> Result<Proof, NoMemory>
    ensures { IfOk result (λ proof. proof ≡ Built (number ∷ []) (Holds ∷ [])) }
{
    let mut pick = List::new(alloc);
    pick.push(number)?;
    let mut boxes = List::new(alloc);
    boxes.push(BoxTree::Holds)?;
    Ok(Proof::Built { pick, boxes })
}

/// The proof for a slot: the first row that lies in the target, or a tree over all rows.
fn prove_slot(alloc: Global, slot: &Slot) -> Result<Proof, NoMemory>
    requires { IsWellMadeSlot slot.now }
    ensures { IfOk result (IsDecision slot.now) }
{
    match first_in_target(slot) {
        Some(number) => built(alloc, number),
        None => Ok(Proof::Tree {
            verdict: Verdict::Refuted,
            tree: refute(alloc, slot, slot.rows.as_slice())?,
        }),
    }
}

/// Finds the first good pick, or shows that no pick is good.
///
/// Ok is a valid certificate with these steps: a built one with the pick of the first good row exactly
/// where a pick is good, and else a refuted one, whose tree divides the rows at the middle. It may
/// have 1,999 nodes for 1,000 rows. The time is linear in the rows for the first good row, and n·log n
/// for the tree. The one error is want of memory.
pub fn search(alloc: Global, problem: &Problem, steps: u32) -> Result<Cert, NoMemory>
    requires made { IsWellMade problem.now }
    requires few { HasAtMost 1000 problem.now }
    requires steps_enough { 2000 ≤ steps }
    requires steps_most { steps ≤ 200000 }
    ensures valid { IfOk result (IsValid problem.now) }
    ensures steps { IfOk result (λ cert. cert.steps ≡ steps) }
    ensures decides { IfOk result (λ cert. Decides problem.now cert.proof) }
{
    let proof = match &problem.slot {
        Some(slot) => prove_slot(alloc, slot)?,
        None => Proof::Built {
            pick: List::new(alloc),
            boxes: List::new(alloc),
        },
    };
    Ok(Cert { steps, proof })
}
