//! The root of a tree.
ghost use Rattle.std.specs.Prelude.{◌≡◌, ◌<◌, ◌∷◌, [], ℕ, List, length, IfErr, IfOk, OnOk};
ghost use Rattle.ato_files.specs.Blocks.{blocks_of};
ghost use Rattle.ato_elab.specs.Building.{IsBuilding, IsGiven, RefusesTree};
ghost use Rattle.ato_elab.specs.Entering.{IsContent, IsEmpty, IsWithin};

use crate::built::Built;
use crate::contents::Content;
use crate::frames::{Counts, Frame, Given, Growth};
use crate::marks::Marks;
use crate::ways::Ways;
use ato_base::{Fault, FaultKind, List, NoMemory, Place, Refusal};
use ato_instance_tree::kind;

impl Growth {
    /// A tree without nodes.
    pub(crate) fn new(given: &Given<'_>) -> Result<Growth, NoMemory>
        ensures { IfOk result (λ growth. IsEmpty given.now growth) }
    {
        Ok(Growth {
            built: Built::new(given.alloc),
            marks: Marks::new(given.alloc, given.program.blocks.len())?,
            counts: Counts {
                nodes: 0,
                occurrences: 0,
            },
        })
    }

    /// The counts with what the type of the root holds.
    fn count_root(&self, given: &Given<'_>, content: &Content<'_>) -> Result<Counts, Refusal>
        ensures within { IfOk result (λ counts. IsWithin given.now.most self.now.counts content.now counts) }
        ensures refused { IfErr result (λ refusal. (entry : ℕ) → IsEmpty given.now self.now → IsContent given.now.program.now.files entry content.now → RefusesTree given.now entry refusal) }
    {
        match self.counts.with(given.most, content) {
            Some(counts) => Ok(counts),
            None => Err(Refusal::Fault(Fault {
                kind: FaultKind::TreeTooLarge,
                at: Place::Word(1),
                other: None,
                path: List::new(given.alloc),
            })),
        }
    }

    /// Puts the root, of this type, and opens it.
    fn open_root<'a>(
        &mut self,
        given: &Given<'a>,
        entry: u32,
        content: Content<'a>,
        counts: Counts,
    ) -> Result<Frame<'a>, NoMemory>
        ensures { IfOk result (λ root. IsGiven given.now.program.now given.now.meanings.now → entry < length (blocks_of given.now.program.now.files) → IsEmpty given.now self.old → IsContent given.now.program.now.files entry content.entry
            → IsWithin given.now.most self.old.counts content.entry counts → IsBuilding given.now entry (root ∷ []) self.new) }
    {
        self.built
            .put_root(given.alloc, kind(given.program, entry), entry)?;
        self.built.look(0, content.statements.as_slice())?;
        let none = List::new(given.alloc);
        let ways = Ways::of(
            given.alloc,
            given.program,
            given.meanings,
            content.statements.as_slice(),
            none.as_slice(),
        )?;
        self.marks.set(entry, true);
        self.counts = counts;
        Ok(Frame {
            number: 0,
            name: None,
            block: entry,
            members: content.members,
            next: 0,
            ways,
        })
    }

    /// Puts the root of a tree, and opens it.
    pub(crate) fn put_root<'a>(
        &mut self,
        given: &Given<'a>,
        entry: u32,
    ) -> Result<Frame<'a>, Refusal>
        ensures put { IfOk result (λ root. IsGiven given.now.program.now given.now.meanings.now → entry < length (blocks_of given.now.program.now.files) → IsEmpty given.now self.old → IsBuilding given.now entry (root ∷ []) self.new) }
        ensures refused { IfErr result (λ refusal. IsGiven given.now.program.now given.now.meanings.now → IsEmpty given.now self.old → RefusesTree given.now entry refusal) }
    {
        let content = Content::of(given, entry)?;
        let counts = self.count_root(given, &content)?;
        let root = self.open_root(given, entry, content, counts)?;
        Ok(root)
    }
}
