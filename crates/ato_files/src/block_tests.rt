use crate::block_places::block_places;
use crate::infos::block_infos;
use crate::lineages::lineages;
use crate::meanings::Meanings;
use crate::parents::parents;
use crate::{BlockInfo, Program, SourceFile};
use ato_base::{FileId, List, NameTable, NoMemory, Refusal, Text};
use ato_lexer::lex;
use ato_parser::{ends_once, parse};
use std::alloc::Global;
use std::test::Fail;

/// The same bytes.
fn copy(alloc: Global, bytes: &[u8]) -> Result<List<u8>, NoMemory> {
    Ok(List::from_vec(Vec::from_slice(alloc, bytes)?))
}

/// A file of this text, with its tree.
fn source(
    alloc: Global,
    names: &mut NameTable,
    file: u32,
    name: &str,
    text: &str,
) -> Result<SourceFile, Refusal> {
    let bytes = text.as_bytes();
    if bytes.len() > 1000 {
        return Err(Refusal::NoMemory);
    }
    let tokens = lex(alloc, bytes, FileId(file), names)?;
    if !ends_once(tokens.as_slice()) {
        return Err(Refusal::NoMemory);
    }
    Ok(SourceFile {
        name: Text::copy(alloc, name)?,
        bytes: copy(alloc, bytes)?,
        tree: parse(alloc, tokens.as_slice())?,
    })
}

/// What is kept of the blocks of files. A block whose ancestors never end has no lineage.
fn kept(alloc: Global, files: &[SourceFile]) -> Result<List<BlockInfo>, NoMemory> {
    let places = block_places(alloc, files)?;
    let meanings = Meanings::of(alloc, files, places.as_slice())?;
    let parents = parents(alloc, files, places.as_slice(), &meanings)?;
    let lineages = lineages(alloc, parents.as_slice())?;
    block_infos(alloc, places.as_slice(), lineages)
}

/// Three files, with imports, a name that is there twice, and blocks with parents that loop.
const FILES: &[(&str, &str)] = &[
    ("<library>", "module Part: pass\n"),
    (
        "main.ato",
        "import Part\nfrom \"b.ato\" import Base, None\nmodule Top from Base: pass\nmodule Up from Top: pass\nmodule Top from Part: pass\n",
    ),
    (
        "b.ato",
        "module Loop from Other: pass\nmodule Other from Loop: pass\nmodule Under from Other: pass\nmodule Base: pass\n",
    ),
    ("b.ato", "module Base: pass\n"),
];

/// The project of the files.
fn project(alloc: Global) -> Result<Program, Refusal> {
    let mut names = NameTable::new(alloc)?;
    let mut files = List::new(alloc);
    let mut number = 0;
    for (name, text) in FILES {
        files.push(source(alloc, &mut names, number, name, text)?)?;
        number = 1;
    }
    let blocks = kept(alloc, files.as_slice())?;
    Ok(Program {
        names,
        files,
        blocks,
    })
}

/// The lineages of the nine blocks, from the first on.
const LINEAGES: &[&[u32]] = &[
    &[0],
    &[7, 1],
    &[7, 1, 2],
    &[0, 3],
    &[],
    &[],
    &[],
    &[7],
    &[8],
];

#[test]
fn lineages_follow_parents(rt: HostRuntime) -> Result<(), Fail> {
    let project = project(rt.alloc())?;
    assert!(rt; project.blocks.len() == LINEAGES.len());
    for (block, want) in project.blocks.as_slice().iter().zip(LINEAGES) {
        assert!(rt; block.lineage.as_slice() == *want);
    }
    Ok(())
}

/// Names in files, and the blocks that they mean.
const MEANINGS: &[(u32, &str, Option<u32>)] = &[
    (0, "Part", Some(0)),
    (1, "Part", Some(0)),
    (1, "Top", Some(1)),
    (1, "Base", Some(7)),
    (1, "None", None),
    (1, "Under", None),
    (2, "Base", Some(7)),
    (3, "Base", Some(8)),
    (3, "Nothing", None),
    (4, "Base", None),
];

#[test]
fn names_mean_blocks(rt: HostRuntime) -> Result<(), Fail> {
    let project = project(rt.alloc())?;
    for (file, name, block) in MEANINGS {
        assert!(rt; project.find_block(FileId(*file), name) == *block, "{name}");
    }
    Ok(())
}
