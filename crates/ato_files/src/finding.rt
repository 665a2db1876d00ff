ghost use Rattle.std.specs.Prelude.{◌≡◌, find, slice_get, Some};
ghost use Rattle.std.specs.Option.{option_and_then, option_map};
ghost use Rattle.ato_files.specs.Blocks.{block_of, own, imports_of, import_file, imported, meaning};
ghost use Rattle.ato_files.specs.FileMaps.{number_behind};
ghost use Rattle.ato_files.specs.Finding.{is_of, is_named};
ghost use Rattle.ato_files.specs.Programs.{AreBlocks, IsBlockInfo, found_block};

use crate::SourceFile;
use crate::block_places::{BlockPlace, block_at};
use crate::first_import::first_import;
use crate::pieces::text_at;
use crate::program::{BlockInfo, Program};
use ato_ast::{Block, Quoted};
use ato_base::{FileId, Name};

/// Whether what is kept is of a block of this file with this name.
fn is_named(files: &[SourceFile], file: usize, name: Name, info: &BlockInfo) -> bool
    ensures { result ≡ is_named files.now file name.0 info.now }
{
    let place = BlockPlace {
        file: info.file.0,
        item: info.item,
    };
    if info.file.0 as usize != file {
        return false;
    }
    match block_at(files, place) {
        Some(block) => block.name.name.0 == name.0,
        None => false,
    }
}

/// The own block of a file with this name.
fn own_block(files: &[SourceFile], blocks: &[BlockInfo], file: usize, name: Name) -> Option<u32>
    ensures { AreBlocks files.now blocks.now → result ≡ own files.now file name.0 }
{
    for info in blocks {
        if is_named(files, file, name, info) {
            // A block's lineage ends with its own number.
            return info.lineage.as_slice().last().copied();
        }
    }
    None
}

/// The number of the first file of this name behind the library.
fn file_named(files: &[SourceFile], text: &[u8]) -> Option<usize>
    ensures { result ≡ number_behind files.now text.now }
{
    for (number, file) in files.iter().enumerate() {
        if number > 0 && text == file.name.as_str().as_bytes() {
            return Some(number);
        }
    }
    None
}

/// The number of the file that an import takes from.
fn source(files: &[SourceFile], file: &SourceFile, from: Option<Quoted>) -> Option<usize>
    ensures { result ≡ import_file files.now file.now from }
{
    match from {
        None => Some(0),
        Some(text) => file_named(files, text_at(file.bytes.as_slice(), text.contents)),
    }
}

/// The block that the first import of a name in a file takes.
fn imported_block(
    files: &[SourceFile],
    blocks: &[BlockInfo],
    file: &SourceFile,
    name: Name,
) -> Option<u32>
    ensures { AreBlocks files.now blocks.now → result ≡ option_and_then (imported files.now file.now) (find (is_of name.0) (imports_of file.now)) }
{
    let (one, from) = first_import(file, name)?;
    let source = source(files, file, from)?;
    own_block(files, blocks, source, one.name)
}

/// The block that a name means in a file.
fn meaning(files: &[SourceFile], blocks: &[BlockInfo], file: usize, name: Name) -> Option<u32>
    ensures { AreBlocks files.now blocks.now → result ≡ meaning files.now file name.0 }
{
    match own_block(files, blocks, file, name) {
        Some(block) => Some(block),
        None => imported_block(files, blocks, files.get(file)?, name),
    }
}

/// What is kept of the block of a number.
fn info_at(blocks: &[BlockInfo], number: usize) -> Option<&BlockInfo>
    ensures { option_map (λ info. info.now) result ≡ slice_get blocks.now number }
{
    blocks.get(number)
}

impl Program {
    /// The number of the block that a name means in a file, its own or the imported one. It takes no memory.
    pub fn find_block(&self, file: FileId, name: &str) -> Option<u32>
        ensures { AreBlocks self.now.files self.now.blocks → result ≡ found_block self.now file.0 name.now }
    {
        let name = self.names.find(name)?;
        meaning(
            self.files.as_slice(),
            self.blocks.as_slice(),
            file.0 as usize,
            name,
        )
    }
    /// The block of a number, as it is written. It takes no memory.
    pub fn declared_block(&self, number: u32) -> Option<&Block>
        ensures { AreBlocks self.now.files self.now.blocks → option_map (λ block. block.now) result ≡ option_map (λ b. b.block) (block_of self.now.files number) }
    {
        let info = info_at(self.blocks.as_slice(), number as usize)?;
        let place = BlockPlace {
            file: info.file.0,
            item: info.item,
        };
        block_at(self.files.as_slice(), place)
    }
}
