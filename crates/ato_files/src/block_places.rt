ghost use Rattle.std.specs.Prelude.{◌≡◌, ◌<◌, ◌^◌, ◌++◌, ℕ, map, length, IfOk, OnOk, option_map};
ghost use Rattle.ato_files.specs.Blocks.{item_block, blocks_of};
ghost use Rattle.ato_files.specs.BlockPlaces.{place_of, item_places, places_of, block_at};
ghost use Rattle.ato_files.specs.Lists.{numbered};

use crate::SourceFile;
use ato_ast::{Block, Item};
use ato_base::{List, NoMemory};
use std::alloc::Global;

/// Where a block stands.
#[derive(Clone, Copy, Debug, PartialEq, Eq)]
pub(crate) struct BlockPlace {
    /// The number of its file.
    pub(crate) file: u32,
    /// The number of the file's item that it is.
    pub(crate) item: u32,
}

/// A number as an u32, if it is not too large.
fn small(number: usize) -> Result<u32, NoMemory>
    ensures { IfOk result (λ same. same ≡ number) }
{
    if number > 0xffff_ffff {
        return Err(NoMemory);
    }
    Ok(number as u32)
}

/// Puts the place of an item behind the others, if it is a block.
fn push_item(
    places: &mut List<BlockPlace>,
    file: usize,
    number: usize,
    item: &Item,
) -> Result<(), NoMemory>
    ensures { OnOk result (places.new ≡ places.old ++ map place_of (item_block file number item.now)) }
{
    match item {
        Item::Heads(_) => Ok(()),
        Item::Block(_) => places.push(BlockPlace {
            file: small(file)?,
            item: small(number)?,
        }),
    }
}

/// Puts the places of a file's blocks behind the others.
fn push_items(places: &mut List<BlockPlace>, file: usize, items: &[Item]) -> Result<(), NoMemory>
    ensures { OnOk result (places.new ≡ places.old ++ item_places file (numbered 0 items.now)) }
{
    for (number, item) in items.iter().enumerate() {
        push_item(places, file, number, item)?;
    }
    Ok(())
}

/// The places of the blocks, by their numbers. More numbers than an u32 has find no memory.
pub(crate) fn block_places(
    alloc: Global,
    files: &[SourceFile],
) -> Result<List<BlockPlace>, NoMemory>
    ensures places { IfOk result (λ places. places ≡ places_of files.now) }
    ensures small { OnOk result (length (blocks_of files.now) < 2 ^ 32) }
{
    let mut places = List::new(alloc);
    for (number, file) in files.iter().enumerate() {
        push_items(&mut places, number, file.tree.items.as_slice())?;
    }
    if places.len() > 0xffff_ffff {
        return Err(NoMemory);
    }
    Ok(places)
}

/// The block at a place, if there is one.
pub(crate) fn block_at(files: &[SourceFile], place: BlockPlace) -> Option<&Block>
    ensures { option_map (λ block. block.now) result ≡ block_at files.now place }
{
    let file = files.get(place.file as usize)?;
    match file.tree.items.as_slice().get(place.item as usize)? {
        Item::Heads(_) => None,
        Item::Block(block) => Some(block),
    }
}
