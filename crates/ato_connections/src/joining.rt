//! The classes of the nodes of a tree, or the first fault of its paths and links.
ghost use Rattle.std.specs.Prelude.{◌≡◌, ◌<◌, ℕ, suc, All, List, IfOk, IfErr, MatchOption, slice_get, None};
ghost use Rattle.ato_instance_tree.specs.Elaborated.{IsElaborated, IsLoaded};
ghost use Rattle.ato_instance_tree.specs.TreeFaults.{Limits};
ghost use Rattle.ato_links.specs.Linked.{IsLinked, IsTreeOf, IsUnlinked};
ghost use Rattle.ato_nets.specs.ClassNumbers.{AreClassNumbers};
ghost use Rattle.ato_connections.specs.Linking.{Has};
ghost use Rattle.ato_connections.specs.Members.{AreMembers};
ghost use Rattle.ato_connections.specs.NodeLinks.{NodeLink};
ghost use Rattle.ato_connections.specs.Outcome.{ClashesFirst, IsOf, JoinsFirst, Refuses, RefusesClash, sound_before};

use crate::given::Given;
use crate::library::Library;
use crate::links::Links;
use crate::members::{Members, small};
use crate::statements::{join_stmt, left_end};
use ato_base::{Fault, FaultKind, List, Name, NoMemory, Place, Refusal, Span};
use ato_elab::names_to;
use ato_files::Program;
use ato_instance_tree::{Occurrence, Tree};
use ato_links::Classes;
use ato_nets::class_numbers;
use std::alloc::Global;

/// A connection whose ends cannot be joined.
#[derive(Clone, Copy)]
pub(crate) struct Clash {
    /// The number of the instance that has it.
    pub(crate) instance: u32,
    /// Where its left end stands.
    pub(crate) at: Span,
}

/// The occurrence of a number.
fn entry_at(tree: &Tree, number: usize) -> Option<Occurrence>
    ensures { result ≡ slice_get tree.now.occurrences number }
{
    tree.occurrences.as_slice().get(number).copied()
}

/// Joins what the statement of the occurrence of a number connects, or tells that it cannot be joined.
fn clash_at(
    links: &mut Links,
    given: &Given<'_, '_>,
    tree: &Tree,
    number: usize,
) -> Result<Option<Clash>, NoMemory>
    ensures { IfOk result (λ found. IsOf given.now tree.now → JoinsFirst given.now tree.now number links.old
        → MatchOption found (JoinsFirst given.now tree.now (suc number) links.new) (ClashesFirst given.now tree.now number)) }
{
    let Some(entry) = entry_at(tree, number) else {
        return Ok(None);
    };
    let Some(stmt) = tree.statement(given.program, small(number)?) else {
        return Ok(None);
    };
    join_stmt(links, given, entry.node, stmt)?;
    if !links.clash {
        return Ok(None);
    }
    match left_end(stmt) {
        Some(at) => Ok(Some(Clash {
            instance: entry.node,
            at,
        })),
        None => Ok(None),
    }
}

/// Joins what the first so many occurrences connect, up to the first one that cannot be joined.
fn first_clash(
    links: &mut Links,
    given: &Given<'_, '_>,
    tree: &Tree,
    count: usize,
) -> Result<Option<Clash>, NoMemory>
    ensures { IfOk result (λ found. IsOf given.now tree.now → ((link : NodeLink) → Has links.old link → ⊥)
        → MatchOption found (JoinsFirst given.now tree.now count links.new)
        (λ clash. (number : ℕ) × (number < count) × ClashesFirst given.now tree.now number clash)) }
{
    for number in 0..count {
        match clash_at(links, given, tree, number)? {
            Some(clash) => return Ok(Some(clash)),
            None => {}
        }
    }
    Ok(None)
}

/// The fault of a connection whose ends cannot be joined.
fn clash_fault(given: &Given<'_, '_>, clash: Clash) -> Refusal
    ensures { RefusesClash given.now clash result }
{
    match names_to(
        given.alloc,
        &given.program.names,
        given.nodes,
        clash.instance,
    ) {
        Ok(path) => Refusal::Fault(Fault {
            kind: FaultKind::CannotConnect,
            at: Place::Source(clash.at),
            other: None,
            path,
        }),
        Err(_) => Refusal::NoMemory,
    }
}

/// Names once more.
fn copied(alloc: Global, names: &[Name]) -> Result<List<Name>, NoMemory>
    ensures { IfOk result (λ copy. copy ≡ names.now) }
{
    let mut copy = List::with_capacity(alloc, names.len())?;
    for name in names {
        copy.push(*name)?;
    }
    Ok(copy)
}

/// A fault once more.
fn same_fault(alloc: Global, fault: &Fault) -> Refusal
    ensures { Refuses fault.now result }
{
    match copied(alloc, fault.path.as_slice()) {
        Ok(path) => Refusal::Fault(Fault {
            kind: fault.kind,
            at: fault.at,
            other: fault.other,
            path,
        }),
        Err(_) => Refusal::NoMemory,
    }
}

/// The classes of so many nodes by what is joined.
fn classes(alloc: Global, count: usize, links: &Links) -> Result<Classes, NoMemory>
    requires { All (λ join. (join.0 < count) × (join.1 < count)) links.now.joins }
    ensures { IfOk result (λ classes. AreClassNumbers count links.now.joins classes.of) }
{
    let numbers = class_numbers(alloc, count, links.joins.as_slice())?;
    let mut of = List::with_capacity(alloc, count)?;
    for number in &numbers {
        of.push(small(*number)?)?;
    }
    Ok(Classes { of })
}

/// How many occurrences stand before that of the tree's first fault of paths.
fn sound(tree: &Tree) -> usize
    ensures { result ≡ sound_before tree.now.occurrences tree.now.first }
{
    match &tree.first {
        Some(late) => late.occurrence as usize,
        None => tree.occurrences.len(),
    }
}

/// The same by the members of the tree's instances.
fn joined_by(
    alloc: Global,
    program: &Program,
    tree: &Tree,
    members: &Members<'_>,
) -> Result<Classes, Refusal>
    requires loaded { IsLoaded program.now }
    requires tree { IsTreeOf program.now tree.now }
    requires members { AreMembers tree.now.nodes members.now }
    ensures classes { IfOk result (λ classes. (most : Limits) (name : List ℕ) (is : IsElaborated most program.now name tree.now)
        → IsLinked program.now is.entry classes) }
    ensures sound { IfOk result (λ _. tree.now.first ≡ None) }
    ensures refused { IfErr result (λ refusal. (most : Limits) (name : List ℕ) (is : IsElaborated most program.now name tree.now)
        → IsUnlinked program.now is.entry refusal) }
{
    let given = Given {
        alloc,
        program,
        nodes: tree.nodes.as_slice(),
        members,
        library: Library::of(program),
    };
    let mut links = Links::new(alloc);
    if let Some(clash) = first_clash(&mut links, &given, tree, sound(tree))? {
        return Err(clash_fault(&given, clash));
    }
    if let Some(late) = &tree.first {
        return Err(same_fault(alloc, &late.fault));
    }
    Ok(classes(alloc, tree.nodes.len(), &links)?)
}

/// For each node of a tree the least number of a node that is joined with it, by the connections that are written in the project.
///
/// The work is linear in the nodes, the occurrences and what they join.
///
/// # Errors
///
/// The first fault of paths and links: that of the tree, or before it a connection whose ends, or two members that it reaches from
/// there, cannot be joined, with the place of its left end and the path of the instance. Or memory ran out.
pub fn joined(alloc: Global, program: &Program, tree: &Tree) -> Result<Classes, Refusal>
    requires loaded { IsLoaded program.now }
    requires tree { IsTreeOf program.now tree.now }
    ensures classes { IfOk result (λ classes. (most : Limits) (name : List ℕ)
        (is : IsElaborated most program.now name tree.now) → IsLinked program.now is.entry classes) }
    ensures sound { IfOk result (λ _. tree.now.first ≡ None) }
    ensures refused { IfErr result (λ refusal. (most : Limits) (name : List ℕ)
        (is : IsElaborated most program.now name tree.now) → IsUnlinked program.now is.entry refusal) }
{
    let members = Members::of(alloc, tree.nodes.as_slice())?;
    joined_by(alloc, program, tree, &members)
}
