//! The entry block.
ghost use Rattle.std.specs.Prelude.{◌≡◌};
ghost use Rattle.ato_files.specs.Programs.{AreBlocks};
ghost use Rattle.ato_instance_tree.specs.Elaborated.{entry_of};

use crate::settling::info_at;
use ato_base::FileId;
use ato_files::Program;

/// The block of a name among the entry file's own. It takes no memory.
#[tactic(auto, using(crate::proofs::EntryBlockLaws::unknown, crate::proofs::EntryBlockLaws::here, crate::proofs::EntryBlockLaws::away, crate::proofs::EntryBlockLaws::listed))]
pub(crate) fn entry_block(program: &Program, name: &str) -> Option<u32>
    ensures { AreBlocks program.now.files program.now.blocks → result ≡ entry_of program.now name.now }
{
    let block = program.find_block(FileId(1), name)?;
    let info = info_at(program.blocks.as_slice(), block as usize)?;
    if info.file.0 == 1 { Some(block) } else { None }
}
