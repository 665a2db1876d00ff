//! Certificates as they are read, part by part.
ghost use Rattle.std.specs.Prelude.{◌≡◌, ◌++◌, ◌∷◌, [], ◌<◌, ◌≤◌, ◌^◌, ℕ, Bool, List, length, Some, MatchResult, IfOk, IfSome};
ghost use Rattle.std.specs.List.{All};
ghost use Rattle.ato_cert.specs.declared.cert.BoxTree.TheVariants.{Holds};
ghost use Rattle.ato_cert.specs.Texts.{steps_line, pick_line, boxes_text, proof_text};
ghost use Rattle.ato_cert.specs.Readable.{IsStepCount};
ghost use Rattle.ato_cert.specs.Reading.{Reads, ReadsNothing, Because, head_text, IsPickOver, AtMost, IsProofOver, IsNoText, IsTextOf};

use crate::line::ReadFault;
use crate::numbers::number;
use crate::pieces::after;
use crate::reading::read_tree;
use crate::writing::{push_pick, steps_line};
use crate::{BoxTree, Cert, Proof, Verdict};
use ato_base::{List, NoMemory};
use std::alloc::Global;

/// The first two lines, whether a built certificate begins so, and what follows.
fn read_head(text: &[u8]) -> Result<(bool, &[u8]), ReadFault>
    ensures { MatchResult result
        (λ r. Reads (λ (_ : Bool). Unit {0}) head_text text.now r.0 r.1.now)
        (Because (ReadsNothing (λ (_ : Bool). Unit {0}) head_text text.now)) }
{
    let Some(rest) = after(text, b"ato-certificate 1\n") else {
        return Err(ReadFault::At(text.len()))
    };
    if let Some(behind) = after(rest, b"verdict built\n") {
        return Ok((true, behind));
    }
    match after(rest, b"verdict refuted\n") {
        Some(behind) => Ok((false, behind)),
        None => Err(ReadFault::At(rest.len())),
    }
}

/// The number in a line of steps.
fn steps_guess(text: &[u8]) -> Option<u32>
    ensures { (steps : ℕ) (rest : List ℕ) → steps < 2 ^ 32 → text.now ≡ steps_line steps ++ rest → result ≡ Some steps }
{
    match after(text, b"steps ") {
        Some(behind) => match number(behind) {
            Some((steps, _)) => Some(steps),
            None => None,
        },
        None => None,
    }
}

/// The line of steps that stands first, and what follows.
fn read_steps(alloc: Global, text: &[u8]) -> Result<(u32, &[u8]), ReadFault>
    ensures { MatchResult result
        (λ r. Reads IsStepCount steps_line text.now r.0 r.1.now)
        (Because (ReadsNothing IsStepCount steps_line text.now)) }
{
    let Some(steps) = steps_guess(text) else {
        return Err(ReadFault::At(text.len()))
    };
    if steps < 1 || 200_000 < steps {
        return Err(ReadFault::At(text.len()));
    }
    let written = steps_line(alloc, steps)?;
    match after(text, written.as_bytes()) {
        Some(rest) => Ok((steps, rest)),
        None => Err(ReadFault::At(text.len())),
    }
}

/// The pick of a line of at most one number.
fn pick_guess(alloc: Global, text: &[u8]) -> Result<Option<List<u32>>, NoMemory>
    ensures back { IfOk result (λ guess. (pick : List ℕ) (rest : List ℕ) → length pick ≤ 1 → All (λ n. n < 2 ^ 32) pick
        → text.now ≡ pick_line pick ++ rest → guess ≡ Some pick) }
    ensures small { IfOk result (λ guess. IfSome guess (All (λ n. n < 2 ^ 32))) }
{
    let mut pick = List::new(alloc);
    match after(text, b"pick ") {
        Some(behind) => match number(behind) {
            Some((number, _)) => {
                pick.push(number)?;
                Ok(Some(pick))
            }
            None => Ok(None),
        },
        None => Ok(Some(pick)),
    }
}

/// The line of a pick that stands first, with one number for each slot, and what follows.
fn read_pick(alloc: Global, count: u32, text: &[u8]) -> Result<(List<u32>, &[u8]), ReadFault>
    requires { count ≤ 1 }
    ensures { MatchResult result
        (λ r. Reads (IsPickOver count) pick_line text.now r.0 r.1.now)
        (Because (ReadsNothing (IsPickOver count) pick_line text.now)) }
{
    let Some(pick) = pick_guess(alloc, text)? else {
        return Err(ReadFault::At(text.len()))
    };
    if pick.len() != count as usize {
        return Err(ReadFault::At(text.len()));
    }
    let mut written = Vec::new(alloc);
    push_pick(alloc, &mut written, pick.as_slice())?;
    match after(text, written.as_slice()) {
        Some(rest) => Ok((pick, rest)),
        None => Err(ReadFault::At(text.len())),
    }
}

/// The one check that holds.
fn one_holds(alloc: Global) -> Result<List<BoxTree>, NoMemory>
    ensures { IfOk result (λ boxes. boxes ≡ Holds ∷ []) }
{
    let mut boxes = List::new(alloc);
    boxes.push(BoxTree::Holds)?;
    Ok(boxes)
}

/// The checks and the last line of a built certificate, and what follows.
fn read_boxes(alloc: Global, count: u32, text: &[u8]) -> Result<(List<BoxTree>, &[u8]), ReadFault>
    requires { count ≤ 1 }
    ensures { MatchResult result
        (λ r. Reads (AtMost count) boxes_text text.now r.0 r.1.now)
        (Because (ReadsNothing (AtMost count) boxes_text text.now)) }
{
    if 1 <= count {
        if let Some(check) = after(text, b"check 1\n") {
            let Some(holds) = after(check, b"holds\n") else {
                return Err(ReadFault::At(check.len()))
            };
            let Some(rest) = after(holds, b"end\n") else {
                return Err(ReadFault::At(holds.len()))
            };
            return Ok((one_holds(alloc)?, rest));
        }
    }
    match after(text, b"end\n") {
        Some(rest) => Ok((List::new(alloc), rest)),
        None => Err(ReadFault::At(text.len())),
    }
}

/// The proof after the first three lines, and what follows.
fn read_proof(
    alloc: Global,
    count: u32,
    built: bool,
    text: &[u8],
) -> Result<(Proof, &[u8]), ReadFault>
    requires { count ≤ 1 }
    ensures { MatchResult result
        (λ r. Reads (IsProofOver count built) proof_text text.now r.0 r.1.now)
        (Because (ReadsNothing (IsProofOver count built) proof_text text.now)) }
{
    if built {
        let (pick, rest) = read_pick(alloc, count, text)?;
        let (boxes, rest) = read_boxes(alloc, count, rest)?;
        Ok((Proof::Built { pick, boxes }, rest))
    } else {
        let (tree, rest) = read_tree(alloc, count, 10_000, text)?;
        let verdict = Verdict::Refuted;
        Ok((Proof::Tree { verdict, tree }, rest))
    }
}

/// The certificate that a whole text is.
pub(crate) fn read_whole(alloc: Global, count: u32, text: &[u8]) -> Result<Cert, ReadFault>
    requires { count ≤ 1 }
    ensures { MatchResult result (IsTextOf count text.now) (Because (IsNoText count text.now)) }
{
    let (built, rest) = read_head(text)?;
    let (steps, rest) = read_steps(alloc, rest)?;
    let (proof, rest) = read_proof(alloc, count, built, rest)?;
    if rest.len() != 0 {
        return Err(ReadFault::At(rest.len()));
    }
    Ok(Cert { steps, proof })
}
