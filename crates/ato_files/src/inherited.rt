//! What the ancestors of a block declare.
ghost use Rattle.std.specs.Prelude.{◌≡◌, ◌++◌, [], List, map, OnOk};
ghost use Rattle.std.specs.List.{flat_map};
ghost use Rattle.ato_files.specs.declared.members.Declared.{Declared};
ghost use Rattle.ato_files.specs.declared.program.SourceFile.{SourceFile};
ghost use Rattle.ato_files.specs.Clashes.{AreDeclared};
ghost use Rattle.ato_files.specs.Inherited.{all_members, decls_but};
ghost use Rattle.ato_files.specs.MemberLists.{declared_of};
ghost use Rattle.ato_files.specs.NameFaults.{inherited};
ghost use Rattle.ato_files.specs.ParentLists.{AreParents};

use crate::ancestors::ancestors_of;
use crate::clashes::Clashes;
use crate::members::{Declared, Members};
use ato_base::NoMemory;
use std::alloc::Global;

/// What the block of a number declares; nothing for one block.
fn decls_but(members: &[Members], block: usize, number: usize) -> &[Declared]
    ensures { result.now ≡ decls_but members.now block number }
{
    if number == block {
        return &[];
    }
    match members.get(number) {
        None => &[],
        Some(of_block) => of_block.decls.as_slice(),
    }
}

/// Puts in what blocks declare, without one of them.
fn add_others(
    clashes: &mut Clashes,
    members: &[Members],
    block: usize,
    numbers: &[usize],
) -> Result<(), NoMemory>
    ensures { OnOk result ((seen : List Declared) → AreDeclared clashes.old seen → AreDeclared clashes.new (seen ++ flat_map (decls_but members.now block) numbers.now)) }
{
    for number in numbers {
        clashes.add_all(decls_but(members, block, *number))?;
    }
    Ok(())
}

/// Puts in what the ancestors of a block declare.
pub(crate) fn add_inherited(
    alloc: Global,
    clashes: &mut Clashes,
    members: &[Members],
    parents: &[Option<u32>],
    block: usize,
) -> Result<(), NoMemory>
    ensures { OnOk result ((files : List SourceFile) → AreParents files parents.now → members.now ≡ all_members files → AreDeclared clashes.old [] → AreDeclared clashes.new (map declared_of (inherited files block))) }
{
    let family = ancestors_of(alloc, parents, block)?;
    add_others(clashes, members, block, family.as_slice())
}
