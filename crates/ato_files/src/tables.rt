//! What is known of blocks while the faults of their names are noted.
ghost use Rattle.std.specs.Prelude.{◌≡◌, ◌<◌, length, option_map};
ghost use Rattle.ato_files.specs.Blocks.{block_of, blocks_of, is_known, meaning};
ghost use Rattle.ato_files.specs.Lineages.{never_ends, parent};
ghost use Rattle.ato_files.specs.NameFaults.{is_interface, is_interface_block};
ghost use Rattle.ato_files.specs.Tables.{AreTables};

use crate::SourceFile;
use crate::ancestors::parent_of;
use crate::block_places::{BlockPlace, block_at};
use crate::meanings::Meanings;
use crate::members::Members;
use ato_ast::{Block, BlockKind};
use ato_base::Name;

/// The files, and for each block by its number where it stands, its parent, whether its ancestors end and what its
/// statements name.
#[derive(Drop)]
pub(crate) struct Tables<'a> {
    /// The files.
    pub(crate) files: &'a [SourceFile],
    /// Where the blocks stand.
    pub(crate) places: &'a [BlockPlace],
    /// What names mean.
    pub(crate) meanings: &'a Meanings,
    /// The parents of the blocks.
    pub(crate) parents: &'a [Option<u32>],
    /// Whether the ancestors of the blocks end.
    pub(crate) ends: &'a [bool],
    /// What the statements of the blocks name.
    pub(crate) members: &'a [Members],
}

/// Whether a kind of block is that of interfaces.
pub(crate) fn is_interface(kind: BlockKind) -> bool
    ensures { result ≡ is_interface kind }
{
    match kind {
        BlockKind::Interface => true,
        BlockKind::Module | BlockKind::Component => false,
    }
}

impl<'a> Tables<'a> {
    /// The block that a name means in a file.
    pub(crate) fn meaning(&self, file: usize, name: Name) -> Option<usize>
        requires { AreTables self.now }
        ensures { result ≡ meaning self.now.files.now file name.0 }
    {
        match self.meanings.meaning(file, name) {
            None => None,
            Some(block) => Some(block as usize),
        }
    }

    /// Whether a file has the name, be it of a block or of an import.
    pub(crate) fn knows(&self, file: usize, name: Name) -> bool
        requires { AreTables self.now }
        ensures { result ≡ is_known self.now.files.now file name.0 }
    {
        self.meanings.knows(file, name)
    }

    /// The parent of a block.
    pub(crate) fn parent(&self, block: usize) -> Option<usize>
        requires { AreTables self.now }
        ensures { result ≡ parent self.now.files.now block }
    {
        parent_of(self.parents, block)
    }

    /// Whether the ancestors of a block never end.
    pub(crate) fn never_ends(&self, block: usize) -> bool
        requires tables { AreTables self.now }
        requires within { block < length (blocks_of self.now.files.now) }
        ensures { result ≡ never_ends self.now.files.now block }
    {
        match self.ends.get(block) {
            Some(ends) => !*ends,
            None => false,
        }
    }

    /// The block of a number.
    pub(crate) fn block(&self, number: usize) -> Option<&Block>
        requires { AreTables self.now }
        ensures { option_map (λ block. block.now) result ≡ option_map (λ b. b.block) (block_of self.now.files.now number) }
    {
        let place = self.places.get(number)?;
        block_at(self.files, *place)
    }

    /// Whether the block of a number is an interface.
    pub(crate) fn is_interface_block(&self, number: usize) -> bool
        requires { AreTables self.now }
        ensures { result ≡ is_interface_block self.now.files.now number }
    {
        match self.block(number) {
            None => false,
            Some(block) => is_interface(block.kind),
        }
    }
}
