use ato_ast::File;
use ato_base::{Fault, FileId, List, NameTable, NoMemory, Text};

/// A file of a project with its tree.
#[derive(Drop)]
pub struct SourceFile {
    /// The name under which it stands on the shelf; `<library>` for the library.
    pub name: Text,
    /// What stands in it.
    pub bytes: List<u8>,
    /// Its tree, with names by their numbers in the project's table.
    pub tree: File,
}

/// A file that was read, so that places in it can be told.
#[derive(Debug, Drop)]
pub struct Source {
    /// Its name.
    pub name: Text,
    /// What stands in it.
    pub bytes: List<u8>,
}

/// A block of a project.
#[derive(Debug, Drop)]
pub struct BlockInfo {
    /// The file in which it stands.
    pub file: FileId,
    /// The number of the file's item that it is, from 0.
    pub item: u32,
    /// The numbers of its ancestors, the oldest first, and its own.
    pub lineage: List<u32>,
}

/// A project without a fault of its files and names. File 0 is the library, file 1 the entry, and then the files stand in load
/// order.
#[derive(Drop)]
pub struct Program {
    /// The table of all names.
    pub names: NameTable,
    /// The files, by their numbers.
    pub files: List<SourceFile>,
    /// The blocks of all files, in written order.
    pub blocks: List<BlockInfo>,
}

/// Why there is no program.
#[derive(Debug, Drop)]
pub enum LoadFault {
    /// The first fault of the files and their names, with the library and the files that were read until then, by their numbers.
    Fault(Fault, List<Source>),
    /// The file of this name could not be read.
    Read(Text),
    /// Memory ran out.
    NoMemory,
}

impl From<NoMemory> for LoadFault {
    ghost use Rattle.std.specs.Prelude.{◌≡◌};
    ghost use Rattle.ato_files.specs.declared.program.LoadFault.TheVariants as answers;

    ghost from_gives = { λ _ e. e ≡ answers.NoMemory };

    fn from(_error: NoMemory) -> LoadFault {
        LoadFault::NoMemory
    }
}
