ghost use Rattle.std.specs.Prelude.{◌≡◌, ◌<◌, ◌^◌, length, IfOk};
ghost use Rattle.ato_files.specs.Blocks.{blocks_of, import_file, imported};
ghost use Rattle.ato_files.specs.BlockPlaces.{places_of};
ghost use Rattle.ato_files.specs.FileMaps.{AreNumbers};
ghost use Rattle.ato_files.specs.Meant.{own_pairs, AreOwn};
ghost use Rattle.ato_files.specs.NameMaps.{AreFirst};

use crate::SourceFile;
use crate::block_places::{BlockPlace, block_at};
use crate::file_map::FileMap;
use crate::imports::Import;
use crate::name_map::NameMap;
use crate::pieces::text_at;
use ato_ast::Quoted;
use ato_base::NoMemory;
use std::alloc::Global;

/// Files, the blocks that names mean where they are a file's own, and the files' numbers by their names.
#[derive(Drop)]
pub(crate) struct OwnNames<'a> {
    /// The files.
    pub(crate) files: &'a [SourceFile],
    /// The own blocks of the files.
    pub(crate) own: NameMap,
    /// The numbers of the files.
    pub(crate) numbers: FileMap<'a>,
}

/// The own blocks of files, by their names. The first of a name counts.
fn own_blocks(
    alloc: Global,
    files: &[SourceFile],
    places: &[BlockPlace],
) -> Result<NameMap, NoMemory>
    requires places { places.now ≡ places_of files.now }
    requires small { length (blocks_of files.now) < 2 ^ 32 }
    ensures { IfOk result (λ own. AreFirst (own_pairs files.now) own) }
{
    let mut own = NameMap::new(alloc);
    for (number, place) in places.iter().enumerate() {
        if let Some(block) = block_at(files, *place) {
            own.put(place.file as usize, block.name.name.0, Some(number as u32))?;
        }
    }
    Ok(own)
}

impl<'a> OwnNames<'a> {
    /// The own blocks of files, which stand at these places.
    pub(crate) fn of(
        alloc: Global,
        files: &'a [SourceFile],
        places: &[BlockPlace],
    ) -> Result<OwnNames<'a>, NoMemory>
        requires places { places.now ≡ places_of files.now }
        requires small { length (blocks_of files.now) < 2 ^ 32 }
        ensures own { IfOk result (λ names. AreOwn names) }
        ensures files { IfOk result (λ names. names.files.now ≡ files.now) }
    {
        let own = own_blocks(alloc, files, places)?;
        let numbers = FileMap::of(alloc, files)?;
        Ok(OwnNames {
            files,
            own,
            numbers,
        })
    }

    /// The number of the file that an import takes from.
    fn source(&self, file: &SourceFile, from: Option<Quoted>) -> Option<usize>
        requires { AreOwn self.now }
        ensures { result ≡ import_file self.now.files.now file.now from }
    {
        match from {
            None => Some(0),
            Some(text) => self
                .numbers
                .get(text_at(file.bytes.as_slice(), text.contents)),
        }
    }

    /// The block that an import takes, if there is one.
    pub(crate) fn target(&self, file: &SourceFile, import: Import) -> Option<u32>
        requires { AreOwn self.now }
        ensures { result ≡ imported self.now.files.now file.now import }
    {
        let (name, from) = import;
        let source = self.source(file, from)?;
        match self.own.get(source, name.name.0) {
            Some(block) => block,
            None => None,
        }
    }
}
