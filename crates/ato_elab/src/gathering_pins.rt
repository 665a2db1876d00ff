//! The pins of the types of nodes, type by type.
ghost use Rattle.std.specs.Prelude.{◌≡◌, ◌&&◌, ◌||◌, ℕ, List, Some, nat_eq, map, OnOk, IfOk};
ghost use Rattle.ato_files.specs.declared.program.SourceFile.{SourceFile};
ghost use Rattle.ato_files.specs.Programs.{AreBlocks};
ghost use Rattle.ato_instance_tree.specs.Kept.{member_of};
ghost use Rattle.ato_instance_tree.specs.Members.{members};
ghost use Rattle.ato_instance_tree.specs.Paths.{has_pin, is_pin_of};
ghost use Rattle.ato_elab.specs.Pins.{holds, has_type, is_met, AreHeld, ArePins};

use crate::finding_pins::Pins;
use ato_base::NoMemory;
use ato_files::Program;
use ato_instance_tree::{Member, Node, members, statements};
use indexmap::IndexSet;
use std::alloc::Global;

impl<'a> Pins<'a> {
    /// Puts in a member of a type, if it is a pin.
    fn put_member(&mut self, block: u32, member: Member<'a>) -> Result<(), NoMemory>
        ensures { OnOk result ((type : ℕ) (text : List ℕ) → holds self.new type text ≡ ((nat_eq type block && is_pin_of text (member_of member.entry)) || holds self.old type text)) }
    {
        match member {
            Member::Pin(text) => self.put(block, text),
            Member::Named(_, _) => Ok(()),
        }
    }

    /// Puts in the pins among the members of a type.
    fn put_members(&mut self, block: u32, found: &[Member<'a>]) -> Result<(), NoMemory>
        ensures { OnOk result ((type : ℕ) (text : List ℕ) → holds self.new type text ≡ ((nat_eq type block && has_pin (map member_of found.now) text) || holds self.old type text)) }
    {
        for member in found {
            self.put_member(block, *member)?;
        }
        Ok(())
    }

    /// Puts in the pins of a type.
    fn put_type(&mut self, alloc: Global, program: &'a Program, block: u32) -> Result<(), NoMemory>
        ensures { OnOk result (AreBlocks program.now.files program.now.blocks → (type : ℕ) (text : List ℕ) → holds self.new type text ≡ ((nat_eq type block && has_pin (members program.now.files (Some block)) text) || holds self.old type text)) }
    {
        let all = statements(alloc, program, block)?;
        let found = members(alloc, program.files.as_slice(), all.as_slice())?;
        self.put_members(block, found.as_slice())
    }
}

/// The pins of the types that were met.
#[derive(Drop)]
pub(crate) struct Gathering<'a> {
    /// The types.
    types: IndexSet<u32>,
    /// Their pins.
    pins: Pins<'a>,
}

impl<'a> Gathering<'a> {
    /// No types. It takes no memory.
    fn new(alloc: Global) -> Gathering<'a>
        ensures { (files : List SourceFile) → AreHeld files result }
    {
        Gathering {
            types: IndexSet::new(alloc),
            pins: Pins::new(alloc),
        }
    }

    /// Meets a type, and puts in its pins where it is new.
    fn meet(&mut self, alloc: Global, program: &'a Program, block: u32) -> Result<(), NoMemory>
        ensures met { OnOk result ((type : ℕ) → is_met self.new type ≡ (nat_eq type block || is_met self.old type)) }
        ensures held { OnOk result (AreBlocks program.now.files program.now.blocks → AreHeld program.now.files self.old → AreHeld program.now.files self.new) }
    {
        let is_new = self.types.insert(block)?;
        if is_new {
            self.pins.put_type(alloc, program, block)?;
        }
        Ok(())
    }

    /// Meets the type of a node, if it has one.
    fn meet_node(
        &mut self,
        alloc: Global,
        program: &'a Program,
        node: &Node,
    ) -> Result<(), NoMemory>
        ensures met { OnOk result ((type : ℕ) → is_met self.new type ≡ (has_type type node.now || is_met self.old type)) }
        ensures held { OnOk result (AreBlocks program.now.files program.now.blocks → AreHeld program.now.files self.old → AreHeld program.now.files self.new) }
    {
        match node.block {
            Some(block) => self.meet(alloc, program, block),
            None => Ok(()),
        }
    }
}

impl<'a> Pins<'a> {
    /// The pins of the types of nodes.
    pub(crate) fn of(
        alloc: Global,
        program: &'a Program,
        nodes: &[Node],
    ) -> Result<Pins<'a>, NoMemory>
        ensures { IfOk result (λ pins. AreBlocks program.now.files program.now.blocks → ArePins program.now.files nodes.now pins) }
    {
        let mut gathering = Gathering::new(alloc);
        for node in nodes {
            gathering.meet_node(alloc, program, node)?;
        }
        Ok(gathering.pins)
    }
}
