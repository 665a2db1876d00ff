//! The library's type of wires' ends, and the signal that stands for it.
ghost use Rattle.std.specs.Prelude.{◌≡◌};
ghost use Rattle.std.specs.Option.{option_map};
ghost use Rattle.ato_files.specs.Programs.{AreBlocks};
ghost use Rattle.ato_links.specs.Links.{electrical_of};

use ato_base::{FileId, Name};
use ato_files::Program;

/// The library's type `Electrical`, and the name `line`.
#[derive(Clone, Copy)]
pub(crate) struct Library {
    /// The number of the type.
    pub(crate) electrical: Option<u32>,
    /// The name of the signal.
    pub(crate) line: Option<Name>,
}

/// The number of the library's own block `Electrical`.
fn electrical(program: &Program) -> Option<u32>
    ensures { AreBlocks program.now.files program.now.blocks → result ≡ (electrical_of program.now.files program.now.names).type }
{
    let block = program.find_block(FileId(0), "Electrical")?;
    let info = program.blocks.as_slice().get(block as usize)?;
    if info.file.0 == 0 { Some(block) } else { None }
}

impl Library {
    /// That of a program.
    pub(crate) fn of(program: &Program) -> Library
        ensures block { AreBlocks program.now.files program.now.blocks → result.electrical ≡ (electrical_of program.now.files program.now.names).type }
        ensures line { option_map (λ name. name.0) result.line ≡ (electrical_of program.now.files program.now.names).line }
    {
        Library {
            electrical: electrical(program),
            line: program.names.find("line"),
        }
    }
}
