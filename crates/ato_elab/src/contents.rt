//! What types hold, and how many nodes and occurrences that makes.
ghost use Rattle.std.specs.Prelude.{◌≡◌, ◌+◌, length, filter, map, nat_lt, true, false, IfOk, MatchOption};
ghost use Rattle.ato_files.specs.Programs.{AreBlocks};
ghost use Rattle.ato_instance_tree.specs.Kept.{member_of};
ghost use Rattle.ato_instance_tree.specs.TreeFaults.{is_leaf};
ghost use Rattle.ato_elab.specs.Building.{is_over};
ghost use Rattle.ato_elab.specs.Entering.{IsContent, with_content};

use crate::frames::{Counts, Given};
use ato_base::{List, NoMemory};
use ato_instance_tree::{Kind, Member, StmtAt, members, statements};

/// What a type holds.
#[derive(Drop)]
pub(crate) struct Content<'a> {
    /// Its statements.
    pub(crate) statements: List<StmtAt<'a>>,
    /// Its members.
    pub(crate) members: List<Member<'a>>,
}

impl<'a> Content<'a> {
    /// That of a type.
    pub(crate) fn of(given: &Given<'a>, block: u32) -> Result<Content<'a>, NoMemory>
        ensures { IfOk result (λ content. AreBlocks given.now.program.now.files given.now.program.now.blocks → IsContent given.now.program.now.files block content) }
    {
        let statements = statements(given.alloc, given.program, block)?;
        let members = members(
            given.alloc,
            given.program.files.as_slice(),
            statements.as_slice(),
        )?;
        Ok(Content {
            statements,
            members,
        })
    }
}

/// Whether a member is no instance.
fn is_leaf(member: &Member<'_>) -> bool
    ensures { result ≡ is_leaf (member_of member.now) }
{
    match member {
        Member::Pin(_) => true,
        Member::Named(_, kind) => match kind {
            Kind::Signal | Kind::Param => true,
            Kind::Instance(_) => false,
        },
    }
}

/// How many members are no instances.
fn leaves(members: &[Member<'_>]) -> usize
    ensures { result ≡ length (filter is_leaf (map member_of members.now)) }
{
    let mut count = 0;
    for member in members {
        if is_leaf(member) {
            count += 1;
        }
    }
    count
}

/// A sum, if it is no more than a limit.
fn sum(have: usize, more: usize, most: usize) -> Option<usize>
    ensures { MatchOption result (nat_lt most (have + more) ≡ true) (λ sum. (sum ≡ have + more) × (nat_lt most sum ≡ false)) }
{
    let sum = have.checked_add(more)?;
    if sum > most { None } else { Some(sum) }
}

impl Counts {
    /// The counts with those of what a type holds, if they are within the limits.
    pub(crate) fn with(self, most: Counts, content: &Content<'_>) -> Option<Counts>
        ensures { MatchOption result (is_over most (with_content self content.now) ≡ true) (λ new. (new ≡ with_content self content.now) × (is_over most new ≡ false)) }
    {
        let leaves = sum(self.nodes, leaves(content.members.as_slice()), most.nodes)?;
        let nodes = sum(leaves, 1, most.nodes)?;
        let occurrences = sum(self.occurrences, content.statements.len(), most.occurrences)?;
        Some(Counts { nodes, occurrences })
    }
}
