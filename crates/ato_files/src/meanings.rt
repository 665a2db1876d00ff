ghost use Rattle.std.specs.Prelude.{◌≡◌, ◌++◌, ◌<◌, ◌^◌, ℕ, List, Option, length, IfOk, OnOk};
ghost use Rattle.ato_files.specs.declared.program.SourceFile.{SourceFile};
ghost use Rattle.ato_files.specs.Blocks as blocks;
ghost use Rattle.ato_files.specs.Blocks.{blocks_of, imports_of};
ghost use Rattle.ato_files.specs.BlockPlaces.{places_of};
ghost use Rattle.ato_files.specs.Meant.{AreOwn, AreMeanings, file_pairs, targets_in, found, known, taken};
ghost use Rattle.ato_files.specs.NameMaps.{AreFirst};

use crate::block_places::{BlockPlace, block_places};
use crate::imports::imports_of;
use crate::name_map::NameMap;
use crate::own_names::OwnNames;
use crate::{Program, SourceFile};
use ato_base::{FileId, List, Name, NoMemory};
use std::alloc::Global;

/// What each name means in each file. It is made by [`Program::meanings`].
#[derive(Drop)]
pub struct Meanings {
    /// The own blocks of the files.
    own: NameMap,
    /// What imported names take.
    imported: NameMap,
    /// What the imports of each file take, in written order.
    targets: List<List<Option<u32>>>,
}

/// What the imports of a file take. Their names are put behind those of other files.
fn file_targets(
    alloc: Global,
    names: &OwnNames<'_>,
    imported: &mut NameMap,
    number: usize,
    file: &SourceFile,
) -> Result<List<Option<u32>>, NoMemory>
    requires { AreOwn names.now }
    ensures targets { IfOk result (λ targets. targets ≡ targets_in names.now.files.now file.now) }
    ensures pairs { OnOk result ((pairs : List ((ℕ × ℕ) × Option ℕ)) → AreFirst pairs imported.old → AreFirst (pairs ++ file_pairs names.now.files.now (number, file.now)) imported.new) }
{
    let imports = imports_of(alloc, file)?;
    let mut targets = List::new(alloc);
    for import in imports.as_slice() {
        let target = names.target(file, *import);
        imported.put(number, import.0.name.0, target)?;
        targets.push(target)?;
    }
    Ok(targets)
}

impl Meanings {
    /// What names mean in files, whose blocks stand at these places.
    pub(crate) fn of(
        alloc: Global,
        files: &[SourceFile],
        places: &[BlockPlace],
    ) -> Result<Meanings, NoMemory>
        requires places { places.now ≡ places_of files.now }
        requires small { length (blocks_of files.now) < 2 ^ 32 }
        ensures { IfOk result (λ meanings. AreMeanings files.now meanings) }
    {
        let names = OwnNames::of(alloc, files, places)?;
        let mut imported = NameMap::new(alloc);
        let mut targets = List::new(alloc);
        for (number, file) in files.iter().enumerate() {
            targets.push(file_targets(alloc, &names, &mut imported, number, file)?)?;
        }
        Ok(Meanings {
            own: names.own,
            imported,
            targets,
        })
    }

    /// The number of the block that a name means in a file, its own or the imported one.
    pub fn meaning_in(&self, file: FileId, name: Name) -> Option<u32>
        ensures { (files : List SourceFile) → AreMeanings files self.now → result ≡ blocks.meaning files file.0 name.0 }
    {
        self.meaning(file.0 as usize, name)
    }

    /// The block that a name means in a file, its own or the imported one.
    pub(crate) fn meaning(&self, file: usize, name: Name) -> Option<u32>
        ensures { result ≡ found self.now file name.0 }
    {
        if let Some(Some(block)) = self.own.get(file, name.0) {
            return Some(block);
        }
        match self.imported.get(file, name.0) {
            Some(block) => block,
            None => None,
        }
    }

    /// Whether a file has the name, be it of a block or of an import.
    pub(crate) fn knows(&self, file: usize, name: Name) -> bool
        ensures { result ≡ known self.now file name.0 }
    {
        self.own.get(file, name.0).is_some() || self.imported.get(file, name.0).is_some()
    }

    /// The block that an import of a file takes, both by their numbers.
    pub(crate) fn target(&self, file: usize, import: usize) -> Option<u32>
        ensures { result ≡ taken self.now file import }
    {
        match self.targets.as_slice().get(file)?.as_slice().get(import) {
            Some(block) => *block,
            None => None,
        }
    }
}

impl Program {
    /// What each name means in each file. A program of more blocks than an u32 has numbers finds no memory.
    pub fn meanings(&self, alloc: Global) -> Result<Meanings, NoMemory>
        ensures { IfOk result (λ meanings. AreMeanings self.now.files meanings) }
    {
        let places = block_places(alloc, self.files.as_slice())?;
        Meanings::of(alloc, self.files.as_slice(), places.as_slice())
    }
}
