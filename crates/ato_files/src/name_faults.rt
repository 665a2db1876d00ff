//! The least fault of names.
ghost use Rattle.std.specs.Prelude.{◌≡◌, ◌<◌, Some, length, IfOk, OnOk};
ghost use Rattle.std.specs.List.{flat_map};
ghost use Rattle.ato_files.specs.BlockPlaces.{places_of};
ghost use Rattle.ato_files.specs.Blocks.{BlockAt, block_of, blocks_of};
ghost use Rattle.ato_files.specs.Inherited.{all_members};
ghost use Rattle.ato_files.specs.Lists.{numbered};
ghost use Rattle.ato_files.specs.Meant.{AreMeanings};
ghost use Rattle.ato_files.specs.MemberLists.{members_in};
ghost use Rattle.ato_files.specs.NameFaults.{block_faults, is_component, name_fault};
ghost use Rattle.ato_files.specs.Noted.{noted};
ghost use Rattle.ato_files.specs.ParentLists.{AreParents};
ghost use Rattle.ato_files.specs.Tables.{AreTables, faults_in, kind_faults};

use crate::SourceFile;
use crate::block_members::{note_decls, note_pins};
use crate::block_parents::note_parent;
use crate::block_places::{BlockPlace, block_at};
use crate::block_types::{note_made, note_types};
use crate::endings::endings;
use crate::file_faults::note_files;
use crate::least::Least;
use crate::meanings::Meanings;
use crate::members::{Members, members_of};
use crate::tables::{Tables, is_interface};
use ato_ast::{Block, BlockKind};
use ato_base::{Fault, List, NoMemory};
use std::alloc::Global;

/// What the statements of the blocks name, which stand at these places.
fn all_members(
    alloc: Global,
    files: &[SourceFile],
    places: &[BlockPlace],
) -> Result<List<Members>, NoMemory>
    requires { places.now ≡ places_of files.now }
    ensures { IfOk result (λ members. members ≡ all_members files.now) }
{
    let mut members = List::with_capacity(alloc, places.len())?;
    for place in places {
        if let Some(block) = block_at(files, *place) {
            members.push(members_of(alloc, block)?)?;
        }
    }
    Ok(members)
}

/// Whether a kind of block is that of components.
fn is_component(kind: BlockKind) -> bool
    ensures { result ≡ is_component kind }
{
    match kind {
        BlockKind::Component => true,
        BlockKind::Module | BlockKind::Interface => false,
    }
}

/// Notes what may not stand in a block of its kind.
#[tactic(auto, using(crate::proofs::NotedLaws::noted_append))]
fn note_kind(
    tables: &Tables<'_>,
    file: usize,
    kind: BlockKind,
    members: &Members,
    least: &mut Least,
)
    requires { AreTables tables.now }
    ensures { least.new ≡ noted least.old (kind_faults tables.now.files.now file kind members.now) }
{
    if !is_component(kind) {
        note_pins(members.pins.as_slice(), least);
    }
    if is_interface(kind) {
        note_made(tables, file, members.made.as_slice(), least);
    }
}

/// Notes the faults of the names of a block of a file.
fn note_block(
    alloc: Global,
    tables: &Tables<'_>,
    number: usize,
    file: usize,
    block: &Block,
    members: &Members,
    least: &mut Least,
) -> Result<(), NoMemory>
    requires tables { AreTables tables.now }
    requires within { number < length (blocks_of tables.now.files.now) }
    requires members { members.now ≡ members_in block.now }
    ensures { OnOk result (least.new ≡ noted least.old (faults_in tables.now.files.now number file block.now)) }
{
    note_parent(tables, number, file, block, least);
    note_types(tables, file, members.types.as_slice(), least);
    note_decls(alloc, tables, number, members.decls.as_slice(), least)?;
    note_kind(tables, file, block.kind, members, least);
    Ok(())
}

/// Notes the faults of the names of the block of a number.
fn note_number(
    alloc: Global,
    tables: &Tables<'_>,
    number: usize,
    least: &mut Least,
) -> Result<(), NoMemory>
    requires tables { AreTables tables.now }
    requires within { number < length (blocks_of tables.now.files.now) }
    ensures { OnOk result ((b : BlockAt) → block_of tables.now.files.now number ≡ Some b → least.new ≡ noted least.old (block_faults tables.now.files.now number b)) }
{
    let place = tables.places[number];
    match block_at(tables.files, place) {
        None => Ok(()),
        Some(block) => note_block(
            alloc,
            tables,
            number,
            place.file as usize,
            block,
            &tables.members[number],
            least,
        ),
    }
}

/// Notes the faults of the names of the blocks.
fn note_blocks(alloc: Global, tables: &Tables<'_>, least: &mut Least) -> Result<(), NoMemory>
    requires { AreTables tables.now }
    ensures { OnOk result (least.new ≡ noted least.old (flat_map (λ b. block_faults tables.now.files.now b.0 b.1) (numbered 0 (blocks_of tables.now.files.now)))) }
{
    for number in 0..tables.places.len() {
        note_number(alloc, tables, number, least)?;
    }
    Ok(())
}

/// The least fault of names of files, whose blocks stand at these places, with what is known of the blocks.
pub(crate) fn name_fault(
    alloc: Global,
    files: &[SourceFile],
    places: &[BlockPlace],
    meanings: &Meanings,
    parents: &[Option<u32>],
) -> Result<Option<Fault>, NoMemory>
    requires places { places.now ≡ places_of files.now }
    requires meanings { AreMeanings files.now meanings.now }
    requires parents { AreParents files.now parents.now }
    ensures { IfOk result (λ found. found ≡ name_fault files.now) }
{
    let ends = endings(alloc, parents)?;
    let members = all_members(alloc, files, places)?;
    let tables = Tables {
        files,
        places,
        meanings,
        parents,
        ends: ends.as_slice(),
        members: members.as_slice(),
    };
    let mut least = Least::new();
    note_files(alloc, files, meanings, &mut least)?;
    note_blocks(alloc, &tables, &mut least)?;
    Ok(least.fault(alloc))
}
