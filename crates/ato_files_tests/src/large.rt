//! Large entries, up to the limit of a file. What is done in a time of its size ends soon.
use crate::answers::{ENTRY, loaded, told_over};
use crate::shelves::{Asked, MOST, put_file};
use ato_base::{FileId, List, NoMemory, Text};
use ato_files::{LoadFault, Program};
use std::alloc::Global;
use std::test::Fail;

/// What stands before lines, the start and the end of each with its number between, how many there are, and what
/// stands behind.
type Shape = (&'static str, &'static str, &'static str, u32, &'static str);

/// An entry of lines.
fn files_of(alloc: Global, shape: &Shape) -> Result<List<(Text, List<u8>)>, NoMemory> {
    let (before, start, end, count, behind) = *shape;
    let mut text = String::from_str(alloc, before)?;
    for number in 0..count {
        write!(text, "{start}{number}{end}")?;
    }
    text.push_str(behind)?;
    let mut files = List::new(alloc);
    put_file(&mut files, alloc, ENTRY, text.as_bytes())?;
    Ok(files)
}

/// Large entries without a block or with one, and the line.
const LINES: &[(Shape, &str)] = &[
    (("", "# ", "\n", 25_000, ""), "good main.ato:"),
    (("", "'", "'\n", 25_000, ""), "good main.ato:"),
    (("", "pass; 'a", "'; ", 15_000, ""), "good main.ato:"),
    (
        ("module M:\n", " signal s", "\n", 16_000, ""),
        "good main.ato: 1.0(10)",
    ),
    (
        ("component M:\n", " pin s", "\n", 16_000, ""),
        "good main.ato: 1.0(10)",
    ),
    (
        ("module M:\n", " m", " = new M\n", 14_000, ""),
        "good main.ato: 1.0(10)",
    ),
    (
        ("module M:\n", " v", ": V\n", 20_000, ""),
        "good main.ato: 1.0(10)",
    ),
    (
        ("module M: a", ".a", "", 30_000, " ~ b\n"),
        "good main.ato: 1.0(10)",
    ),
    (
        ("module M:\n", " signal a # ", "\n", 10_000, ""),
        "good main.ato: 1.0(10)",
    ),
    // many names on each side of a parent
    (
        (
            "module N from M:\n signal s0\nmodule M:\n",
            " signal s",
            "\n",
            15_000,
            "",
        ),
        "good main.ato: 1.0(11 10) 1.1(11)",
    ),
    (
        (
            "module M:\n signal s0\nmodule N from M:\n",
            " signal s",
            "\n",
            15_000,
            "",
        ),
        "good main.ato: 1.0(10) 1.1(10 11)",
    ),
    // one fault at the end
    (
        ("", "# ", "\n", 25_000, "import Foo\n"),
        "F11 NameUnknown 1:188897..188900 of main.ato",
    ),
    (
        ("module M:\n", " signal s", "\n", 16_000, " s15999: V\n"),
        "F12 NameTwice 1:228901..228907 of main.ato",
    ),
    (
        ("module M:\n", " signal s", "\n", 16_000, " s0: V\n"),
        "F12 NameTwice 1:228901..228903 of main.ato",
    ),
];

#[test]
fn long_entries(rt: HostRuntime) -> Result<(), Fail> {
    for (shape, want) in LINES {
        let got = told_over(rt.alloc(), files_of(rt.alloc(), shape)?, ENTRY)?;
        assert_eq!(rt; got.as_str(), *want, "{shape:?}");
    }
    Ok(())
}

/// What loading answers for an entry of lines.
fn program_of(alloc: Global, shape: &Shape) -> Result<Program, LoadFault> {
    let mut shelf = Asked::new(alloc, files_of(alloc, shape)?);
    loaded(alloc, &mut shelf, ENTRY)
}

/// Whether the blocks behind the library's are so many, are the items of the entry in this order, and have so many
/// ancestors in all, themselves counted.
fn are_blocks(program: &Program, count: usize, lineages: usize) -> bool {
    let mut found = 0_usize;
    let mut long = 0_usize;
    for block in program.blocks.as_slice() {
        if block.file.0 > 0 {
            if block.file.0 != 1 || block.item as usize != found {
                return false;
            }
            found = found.saturating_add(1);
            long = long.saturating_add(block.lineage.len());
        }
    }
    found == count && long == lineages
}

/// Entries of many blocks, how many there are, and how many ancestors they have.
const BLOCKS: &[(Shape, usize, usize)] = &[
    (("", "module M", ": pass\n", 12_000, ""), 12_000, 12_000),
    (
        ("module A: pass\n", "module M", " from A: pass\n", 9_000, ""),
        9_001,
        18_001,
    ),
    (
        ("", "module M", " from A: pass\n", 9_000, "module A: pass\n"),
        9_001,
        18_001,
    ),
    (
        ("module A: pass\n", "module M", ": a = new A\n", 9_000, ""),
        9_001,
        9_001,
    ),
    (
        ("", "module M", ": a = new A\n", 9_000, "module A: pass\n"),
        9_001,
        9_001,
    ),
    (("", "module M", ": b -> M8999\n", 9_000, ""), 9_000, 9_000),
];

#[test]
fn many_blocks(rt: HostRuntime) -> Result<(), Fail> {
    for row in BLOCKS {
        let program = program_of(rt.alloc(), &row.0)?;
        assert!(rt; are_blocks(&program, row.1, row.2), "{row:?}");
    }
    Ok(())
}

/// An entry that imports many blocks from one file, and that file.
fn imports(alloc: Global, count: u32) -> Result<List<(Text, List<u8>)>, NoMemory> {
    let mut files = List::new(alloc);
    let mut heads = String::new(alloc);
    let mut blocks = String::new(alloc);
    for number in 0..count {
        write!(heads, "from 'b.ato' import M{number}\n")?;
        write!(blocks, "module M{number}: pass\n")?;
    }
    put_file(&mut files, alloc, ENTRY, heads.as_bytes())?;
    put_file(&mut files, alloc, "b.ato", blocks.as_bytes())?;
    Ok(files)
}

#[test]
fn many_imports(rt: HostRuntime) -> Result<(), Fail> {
    let alloc = rt.alloc();
    let mut shelf = Asked::new(alloc, imports(alloc, 9_000)?);
    let program = loaded(alloc, &mut shelf, ENTRY)?;
    assert_eq!(rt; program.blocks.len(), 9_010);
    for (name, want) in [("M0", Some(10)), ("M8999", Some(9_009)), ("M9000", None)].iter() {
        assert!(rt; program.find_block(FileId(1), name) == *want, "{name}");
    }
    Ok(())
}
