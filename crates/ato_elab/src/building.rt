//! Building a tree, member by member.
ghost use Rattle.std.specs.Prelude.{◌≡◌, ◌∷◌, ◌++◌, ◌+◌, [], ℕ, List, OnOk, option_to_list};
ghost use Rattle.ato_elab.specs.declared.frames.Frame.{Frame};
ghost use Rattle.ato_elab.specs.declared.frames.Given.{Given};
ghost use Rattle.ato_files.specs.Members.{Kind};
ghost use Rattle.ato_instance_tree.specs.Members.{pin, named};
ghost use Rattle.ato_elab.specs.Building.{IsBuilding, left, next_of};
ghost use Rattle.ato_elab.specs.Growing.{IsLeafKind};

use crate::frames::{Frame, Given, Growth};
use ato_ast::Named;
use ato_base::NoMemory;
use ato_instance_tree::NodeKind;

impl Growth {
    /// Ends an instance of which each member is put.
    pub(crate) fn close(&mut self, frame: &Frame<'_>)
        ensures { (given : Given) (entry : ℕ) (fs : List Frame) → left frame.now ≡ [] → IsBuilding given entry (frame.now ∷ fs) self.old → IsBuilding given entry fs self.new }
    {
        self.marks.set(frame.block, false);
    }

    /// Puts the next member of an instance, a pin.
    pub(crate) fn put_pin(
        &mut self,
        given: &Given<'_>,
        frame: &Frame<'_>,
        label: &[u8],
    ) -> Result<(), NoMemory>
        ensures { OnOk result ((entry : ℕ) (fs : List Frame) → left frame.now ≡ pin label.now ∷ left (next_of frame.now) → IsBuilding given.now entry (frame.now ∷ fs) self.old → IsBuilding given.now entry (next_of frame.now ∷ fs) self.new) }
    {
        self.built.put_pin(given.alloc, frame.number, label)?;
        Ok(())
    }

    /// Puts the next member of an instance, a signal or a parameter.
    pub(crate) fn put_named(
        &mut self,
        given: &Given<'_>,
        frame: &Frame<'_>,
        name: Named,
        kind: NodeKind,
    ) -> Result<(), NoMemory>
        ensures { OnOk result ((entry : ℕ) (fs : List Frame) (k : Kind) → IsLeafKind k kind → left frame.now ≡ named name k ∷ left (next_of frame.now) → IsBuilding given.now entry (frame.now ∷ fs) self.old → IsBuilding given.now entry (next_of frame.now ∷ fs) self.new) }
    {
        self.built.put_named(
            given.alloc,
            &given.program.names,
            frame.number,
            name.name,
            kind,
        )?;
        Ok(())
    }
}
