//! What connections join.
ghost use Rattle.std.specs.Prelude.{◌≡◌, ◌↔◌, ◌⊎◌, ◌++◌, ◌∷◌, [], suc, ℕ, List, length, OnOk, IfOk};
ghost use Rattle.ato_files.specs.Lists.{Among};
ghost use Rattle.ato_connections.specs.Given.{IsGiven, library_in};
ghost use Rattle.ato_connections.specs.Linking.{Has, Holds};
ghost use Rattle.ato_connections.specs.NodeLinks.{NodeLink, elder, end_links, interface_at, member_side, members_links, pair_links, side_links};

use crate::ends::beside;
use crate::given::Given;
use crate::sides::{Side, reached};
use ato_base::{List, NoMemory};
use ato_elab::descends;
use ato_instance_tree::NodeKind;
use std::alloc::Global;

/// What is joined so far.
#[derive(Drop)]
pub(crate) struct Links {
    /// The numbers of nodes that are joined.
    pub(crate) joins: List<(usize, usize)>,
    /// Whether some two sides cannot be joined.
    pub(crate) clash: bool,
}

/// The type of the instance of a number, if it is an interface.
fn interface_type(given: &Given<'_, '_>, number: u32) -> Option<u32>
    ensures { result ≡ interface_at given.now.nodes.now number }
{
    let node = given.nodes.get(number as usize)?;
    match node.kind {
        NodeKind::Interface => node.block,
        _ => None,
    }
}

/// The one of two instances whose type is that of the other or an ancestor of it; of interfaces only.
fn elder(given: &Given<'_, '_>, one: u32, other: u32) -> Option<u32>
    ensures { IsGiven given.now → result ≡ elder given.now.program.now.files given.now.nodes.now one other }
{
    let first = interface_type(given, one)?;
    let second = interface_type(given, other)?;
    if descends(given.program, second, first) {
        Some(one)
    } else if descends(given.program, first, second) {
        Some(other)
    } else {
        None
    }
}

/// The side of a member of an instance.
fn member(given: &Given<'_, '_>, instance: u32, text: &[u8]) -> Side
    ensures { IsGiven given.now → result ≡ member_side given.now.nodes.now instance text.now }
{
    reached(given.nodes, given.members.named(instance, text))
}

impl Links {
    /// Nothing.
    pub(crate) fn new(alloc: Global) -> Links
        ensures { (link : NodeLink) → Has result link → ⊥ }
    {
        Links {
            joins: List::new(alloc),
            clash: false,
        }
    }

    /// Joins two nodes.
    fn join(&mut self, one: u32, other: u32) -> Result<(), NoMemory>
        ensures joins { OnOk result (self.new.joins ≡ self.old.joins ++ (one, other) ∷ []) }
        ensures clash { OnOk result (self.new.clash ≡ self.old.clash) }
    {
        self.joins.push((one as usize, other as usize))
    }

    /// Joins two sides. Two instances are put off, to `below`.
    fn join_sides(
        &mut self,
        one: Side,
        other: Side,
        below: &mut List<(u32, u32)>,
    ) -> Result<(), NoMemory>
        ensures { OnOk result ((deeper : ℕ → ℕ → List NodeLink) (link : NodeLink)
            → Holds deeper self.new below.new link ↔ (Holds deeper self.old below.old link ⊎ Among link (side_links deeper one other))) }
    {
        match (one, other) {
            (Side::Point(one), Side::Point(other)) => self.join(one, other),
            (Side::Quantity(one), Side::Quantity(other)) => self.join(one, other),
            (Side::Inside(one), Side::Inside(other)) => below.push((one, other)),
            _ => {
                self.clash = true;
                Ok(())
            }
        }
    }

    /// Joins the members of two instances.
    fn join_members(
        &mut self,
        given: &Given<'_, '_>,
        one: u32,
        other: u32,
        below: &mut List<(u32, u32)>,
    ) -> Result<(), NoMemory>
        ensures { OnOk result (IsGiven given.now → (deeper : ℕ → ℕ → List NodeLink) (link : NodeLink)
            → Holds deeper self.new below.new link ↔ (Holds deeper self.old below.old link
            ⊎ Among link (members_links given.now.program.now.files given.now.nodes.now deeper one other))) }
    {
        let Some(elder) = elder(given, one, other) else {
            self.clash = true;
            return Ok(());
        };
        for text in given.members.names(elder) {
            self.join_sides(member(given, one, text), member(given, other, text), below)?;
        }
        Ok(())
    }

    /// Joins the members of pairs of instances, and gives the pairs below.
    fn join_level(
        &mut self,
        given: &Given<'_, '_>,
        pairs: &[(u32, u32)],
    ) -> Result<List<(u32, u32)>, NoMemory>
        ensures { IfOk result (λ below. IsGiven given.now → (depth : ℕ) (link : NodeLink)
            → Holds (pair_links given.now.program.now.files given.now.nodes.now depth) self.new below link
            ↔ Holds (pair_links given.now.program.now.files given.now.nodes.now (suc depth)) self.old pairs.now link) }
    {
        let mut below = List::new(given.alloc);
        for (one, other) in pairs {
            self.join_members(given, *one, *other, &mut below)?;
        }
        Ok(below)
    }

    /// Joins pairs of instances, level by level.
    fn join_pairs(&mut self, given: &Given<'_, '_>, pairs: List<(u32, u32)>) -> Result<(), NoMemory>
        ensures { OnOk result (IsGiven given.now → (link : NodeLink)
            → Has self.new link
            ↔ Holds (pair_links given.now.program.now.files given.now.nodes.now (suc (length given.now.program.now.blocks))) self.old pairs link) }
    {
        let mut pairs = pairs;
        let mut left = given.program.blocks.len();
        pairs = self.join_level(given, pairs.as_slice())?;
        while left > 0 && pairs.len() > 0 {
            left -= 1;
            pairs = self.join_level(given, pairs.as_slice())?;
        }
        Ok(())
    }

    /// Joins the ends of a connection.
    pub(crate) fn join_ends(
        &mut self,
        given: &Given<'_, '_>,
        one: Side,
        other: Side,
    ) -> Result<(), NoMemory>
        ensures { OnOk result (IsGiven given.now → (link : NodeLink) → Has self.new link ↔ (Has self.old link
            ⊎ Among link (end_links given.now.program.now.files given.now.program.now.names given.now.nodes.now (library_in given.now) one other))) }
    {
        let mut below = List::new(given.alloc);
        self.join_sides(
            beside(given, other, one),
            beside(given, one, other),
            &mut below,
        )?;
        self.join_pairs(given, below)
    }
}
