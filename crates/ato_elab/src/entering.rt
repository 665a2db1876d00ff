//! Entering the members that are instances.
ghost use Rattle.std.specs.Prelude.{◌≡◌, ◌∷◌, ℕ, List, Some, reverse, IfOk, IfErr, OnOk};
ghost use Rattle.ato_files.specs.Programs.{AreBlocks};
ghost use Rattle.ato_elab.specs.declared.frames.Frame.{Frame};
ghost use Rattle.ato_elab.specs.declared.frames.Growth.{Growth};
ghost use Rattle.ato_elab.specs.Building.{IsBuilding, IsHere, RefusesTree, next_of, types_of};
ghost use Rattle.ato_elab.specs.Entering.{IsContent, IsLead, IsNewType, IsWithin};
ghost use Rattle.ato_elab.specs.Ways.{kept};

use crate::changes::Change;
use crate::contents::Content;
use crate::fault_paths::fault;
use crate::frames::{Counts, Frame, Given, Growth};
use crate::settling::settle;
use crate::ways::Ways;
use ato_ast::Named;
use ato_base::{FaultKind, List, Name, NoMemory, Refusal};
use ato_instance_tree::kind;

/// The type of a member, and from where it comes.
#[derive(Drop)]
pub(crate) struct Lead<'a> {
    /// The type that `new` gives it.
    pub(crate) from: u32,
    /// This type's name, as it is written.
    pub(crate) new: Named,
    /// The replacements that go on at the member.
    pub(crate) list: List<Change<'a>>,
    /// The type to which those lead that end there.
    pub(crate) block: u32,
}

/// The type that `new` gives to a member. In a loaded project each `new` means a type; where one means none there is no memory.
fn new_of(frame: &Frame<'_>, name: Name) -> Result<(u32, Named), NoMemory>
    ensures { IfOk result (λ new. kept frame.now.ways.news name.0 ≡ Some new) }
{
    match frame.ways.news.get(name.0) {
        Some(new) => Ok(new),
        None => Err(NoMemory),
    }
}

/// The type of a member, or the fault of the first replacement that does not lead on.
fn find_lead<'a>(
    given: &Given<'_>,
    around: &[Frame<'_>],
    frame: &Frame<'a>,
    name: Name,
) -> Result<Lead<'a>, Refusal>
    ensures leads { IfOk result (λ lead. AreBlocks given.now.program.now.files given.now.program.now.blocks → IsLead given.now frame.now name lead) }
    ensures refused { IfErr result (λ refusal. (entry : ℕ) (g : Growth) → IsHere given.now entry (reverse around.now) frame.now name g → RefusesTree given.now entry refusal) }
{
    let (from, new) = new_of(frame, name)?;
    let list = frame.ways.changes.at(given.alloc, name.0)?;
    match settle(given.program, from, list.as_slice()) {
        Ok(block) => Ok(Lead {
            from,
            new,
            list,
            block,
        }),
        Err(at) => Err(fault(given.alloc, around, frame, name, FaultKind::NotSpecial, at)),
    }
}

impl Growth {
    /// That the type of a member is none of those around it.
    fn check_new(
        &self,
        given: &Given<'_>,
        around: &[Frame<'_>],
        frame: &Frame<'_>,
        name: Name,
        lead: &Lead<'_>,
    ) -> Result<(), Refusal>
        ensures free { OnOk result ((entry : ℕ) → IsHere given.now entry (reverse around.now) frame.now name self.now → IsNewType given.now.program.now.files (types_of (frame.now ∷ reverse around.now)) lead.now.block) }
        ensures refused { IfErr result (λ refusal. (entry : ℕ) → IsHere given.now entry (reverse around.now) frame.now name self.now → IsLead given.now frame.now name lead.now → RefusesTree given.now entry refusal) }
    {
        match self.marks.get(lead.block) {
            Some(marked) => {
                if marked {
                    let at = lead.new.at;
                    Err(fault(given.alloc, around, frame, name, FaultKind::NestLoop, at))
                } else {
                    Ok(())
                }
            }
            None => Err(Refusal::NoMemory),
        }
    }

    /// The counts with what the type of a member holds.
    fn count(
        &self,
        given: &Given<'_>,
        around: &[Frame<'_>],
        frame: &Frame<'_>,
        name: Name,
        lead: &Lead<'_>,
        content: &Content<'_>,
    ) -> Result<Counts, Refusal>
        ensures within { IfOk result (λ counts. IsWithin given.now.most self.now.counts content.now counts) }
        ensures refused { IfErr result (λ refusal. (entry : ℕ) → IsHere given.now entry (reverse around.now) frame.now name self.now → IsLead given.now frame.now name lead.now
            → IsNewType given.now.program.now.files (types_of (frame.now ∷ reverse around.now)) lead.now.block → IsContent given.now.program.now.files lead.now.block content.now → RefusesTree given.now entry refusal) }
    {
        match self.counts.with(given.most, content) {
            Some(counts) => Ok(counts),
            None => {
                let at = lead.new.at;
                Err(fault(
                    given.alloc,
                    around,
                    frame,
                    name,
                    FaultKind::TreeTooLarge,
                    at,
                ))
            }
        }
    }

    /// Puts a member of this type, and opens it.
    fn put_below<'a>(
        &mut self,
        given: &Given<'a>,
        frame: &Frame<'_>,
        name: Name,
        lead: &Lead<'a>,
        content: Content<'a>,
        counts: Counts,
    ) -> Result<Frame<'a>, NoMemory>
        ensures { IfOk result (λ below. (entry : ℕ) (fs : List Frame) → IsHere given.now entry fs frame.now name self.old → IsLead given.now frame.now name lead.now
            → IsNewType given.now.program.now.files (types_of (frame.now ∷ fs)) lead.now.block → IsContent given.now.program.now.files lead.now.block content.entry → IsWithin given.now.most self.old.counts content.entry counts
            → IsBuilding given.now entry (below ∷ next_of frame.now ∷ fs) self.new) }
    {
        let block = lead.block;
        let number = self.built.put_instance(
            given.alloc,
            &given.program.names,
            frame.number,
            name,
            kind(given.program, block),
            block,
        )?;
        self.built.look(number, content.statements.as_slice())?;
        let ways = Ways::of(
            given.alloc,
            given.program,
            given.meanings,
            content.statements.as_slice(),
            lead.list.as_slice(),
        )?;
        self.marks.set(block, true);
        self.counts = counts;
        Ok(Frame {
            number,
            name: Some(name),
            block,
            members: content.members,
            next: 0,
            ways,
        })
    }

    /// Enters the next member of an instance, an instance of this name, and opens it.
    pub(crate) fn enter<'a>(
        &mut self,
        given: &Given<'a>,
        around: &[Frame<'_>],
        frame: &Frame<'a>,
        name: Name,
    ) -> Result<Frame<'a>, Refusal>
        ensures entered { IfOk result (λ below. (entry : ℕ) → IsHere given.now entry (reverse around.now) frame.now name self.old → IsBuilding given.now entry (below ∷ next_of frame.now ∷ reverse around.now) self.new) }
        ensures refused { IfErr result (λ refusal. (entry : ℕ) → IsHere given.now entry (reverse around.now) frame.now name self.old → RefusesTree given.now entry refusal) }
    {
        let lead = match find_lead(given, around, frame, name) {
            Ok(lead) => lead,
            Err(refusal) => return Err(refusal),
        };
        self.check_new(given, around, frame, name, &lead)?;
        let content = Content::of(given, lead.block)?;
        let counts = self.count(given, around, frame, name, &lead, &content)?;
        let below = self.put_below(given, frame, name, &lead, content, counts)?;
        Ok(below)
    }
}
