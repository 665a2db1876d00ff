//! Building a tree, step by step.
ghost use Rattle.std.specs.Prelude.{◌≡◌, ◌<◌, ◌+◌, ◌∷◌, [], ℕ, List, length, reverse, IfErr, IfOk, OnOk, MatchOption};
ghost use Rattle.ato_files.specs.Blocks.{blocks_of};
ghost use Rattle.ato_instance_tree.specs.Kept.{member_of};
ghost use Rattle.ato_elab.specs.Building.{IsBuilding, IsGiven, RefusesTree, left, next_of};
ghost use Rattle.ato_elab.specs.Entering.{IsWhole};

use crate::built::Built;
use crate::frames::{Frame, Given, Growth};
use ato_base::{NoMemory, Refusal};
use ato_instance_tree::{Kind, Member, NodeKind};

/// The next member of an instance.
fn next_member<'a>(frame: &Frame<'a>) -> Option<Member<'a>>
    ensures { MatchOption result (left frame.now ≡ []) (λ member. (left frame.now ≡ member_of member ∷ left (next_of frame.now)) × (frame.now.next < length frame.now.members)) }
{
    frame.members.as_slice().get(frame.next).copied()
}

/// Opens an instance within the others.
fn push_frame<'a>(frames: &mut Vec<Frame<'a>>, frame: Frame<'a>) -> Result<(), NoMemory>
    ensures { OnOk result (reverse frames.new.items ≡ frame.entry ∷ reverse frames.old.items) }
{
    frames.push(frame)?;
    Ok(())
}

/// Opens an instance again, with its next member put.
fn push_next<'a>(frames: &mut Vec<Frame<'a>>, frame: Frame<'a>) -> Result<(), NoMemory>
    requires { frame.next < length frame.members }
    ensures { OnOk result (reverse frames.new.items ≡ next_of frame.entry ∷ reverse frames.old.items) }
{
    push_frame(
        frames,
        Frame {
            number: frame.number,
            name: frame.name,
            block: frame.block,
            members: frame.members,
            next: frame.next + 1,
            ways: frame.ways,
        },
    )
}

impl Growth {
    /// Puts the next member of an instance, which is this one, and opens the instance again.
    fn put_member<'a>(
        &mut self,
        given: &Given<'a>,
        around: &mut Vec<Frame<'a>>,
        frame: Frame<'a>,
        member: Member<'a>,
    ) -> Result<(), Refusal>
        requires { frame.next < length frame.members }
        ensures put { OnOk result ((entry : ℕ) → left frame.entry ≡ member_of member.entry ∷ left (next_of frame.entry) → IsBuilding given.now entry (frame.entry ∷ reverse around.old.items) self.old → IsBuilding given.now entry (reverse around.new.items) self.new) }
        ensures refused { IfErr result (λ refusal. (entry : ℕ) → left frame.entry ≡ member_of member.entry ∷ left (next_of frame.entry) → IsBuilding given.now entry (frame.entry ∷ reverse around.old.items) self.old → RefusesTree given.now entry refusal) }
    {
        match member {
            Member::Pin(label) => {
                self.put_pin(given, &frame, label)?;
                push_next(around, frame)?;
                Ok(())
            }
            Member::Named(name, kind) => match kind {
                Kind::Signal => {
                    self.put_named(given, &frame, name, NodeKind::Signal)?;
                    push_next(around, frame)?;
                    Ok(())
                }
                Kind::Param => {
                    self.put_named(given, &frame, name, NodeKind::Param)?;
                    push_next(around, frame)?;
                    Ok(())
                }
                Kind::Instance(_) => match self.enter(given, around.as_slice(), &frame, name.name) {
                    Ok(below) => {
                        push_next(around, frame)?;
                        push_frame(around, below)?;
                        Ok(())
                    }
                    Err(refusal) => Err(refusal),
                },
            },
        }
    }

    /// Puts the next member of the innermost open instance, or ends the instance.
    fn step<'a>(&mut self, given: &Given<'a>, frames: &mut Vec<Frame<'a>>) -> Result<(), Refusal>
        ensures put { OnOk result ((entry : ℕ) → IsBuilding given.now entry (reverse frames.old.items) self.old → IsBuilding given.now entry (reverse frames.new.items) self.new) }
        ensures refused { IfErr result (λ refusal. (entry : ℕ) → IsBuilding given.now entry (reverse frames.old.items) self.old → RefusesTree given.now entry refusal) }
    {
        match frames.pop() {
            Some(frame) => match next_member(&frame) {
                Some(member) => self.put_member(given, frames, frame, member),
                None => {
                    self.close(&frame);
                    Ok(())
                }
            },
            None => Ok(()),
        }
    }

    /// Takes steps until no instance is open. Where so many steps are too few there is no memory.
    fn turn<'a>(
        &mut self,
        given: &Given<'a>,
        frames: &mut Vec<Frame<'a>>,
        steps: usize,
    ) -> Result<(), Refusal>
        ensures put { OnOk result ((entry : ℕ) → IsBuilding given.now entry (reverse frames.old.items) self.old → IsBuilding given.now entry [] self.new) }
        ensures refused { IfErr result (λ refusal. (entry : ℕ) → IsBuilding given.now entry (reverse frames.old.items) self.old → RefusesTree given.now entry refusal) }
    {
        for _ in 0..steps {
            if frames.len() == 0 {
                return Ok(());
            }
            match self.step(given, frames) {
                Ok(()) => {}
                Err(refusal) => return Err(refusal),
            }
        }
        Err(Refusal::NoMemory)
    }
}

/// How many steps a tree may take: one for each node but the root, one for the end of each instance, and one to see that nothing is left.
fn steps(nodes: usize) -> Result<usize, NoMemory>
    ensures { IfOk result (λ steps. steps ≡ nodes + nodes) }
{
    match nodes.checked_add(nodes) {
        Some(steps) => Ok(steps),
        None => Err(NoMemory),
    }
}

/// Builds the tree of an entry block, or tells its first fault.
#[tactic(auto, using(crate::proofs::RootLaws::finished))]
pub(crate) fn build(given: &Given<'_>, entry: u32) -> Result<Built, Refusal>
    ensures built { IfOk result (λ built. IsGiven given.now.program.now given.now.meanings.now → entry < length (blocks_of given.now.program.now.files) → IsWhole given.now entry built) }
    ensures refused { IfErr result (λ refusal. IsGiven given.now.program.now given.now.meanings.now → entry < length (blocks_of given.now.program.now.files) → RefusesTree given.now entry refusal) }
{
    let mut growth = Growth::new(given)?;
    let root = growth.put_root(given, entry)?;
    let mut frames = Vec::new(given.alloc);
    push_frame(&mut frames, root)?;
    let most = steps(given.most.nodes)?;
    match growth.turn(given, &mut frames, most) {
        Ok(()) => Ok(growth.built),
        Err(refusal) => Err(refusal),
    }
}
