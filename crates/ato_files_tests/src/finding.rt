//! What names mean in the files of a program.
use crate::answers::{ENTRY, loaded};
use crate::shelves::{Asked, Texts, files_of};
use ato_base::FileId;
use ato_files::{LoadFault, Program};
use std::alloc::Global;
use std::test::Fail;

/// Three files. Their blocks are A 10 and C 11, B 12 and E 13, D 14.
const FILES: Texts = &[
    (
        "main.ato",
        "import B from 'b.ato'; import LED, SPI\nmodule A from B: pass\nmodule C:\n    signal s\n",
    ),
    (
        "b.ato",
        "from 'c.ato' import D\nmodule B: v: V\nmodule E: pass\nimport A from 'main.ato'\n",
    ),
    ("c.ato", "component D: pin 1\n"),
];

/// Files, names, and the number of the block that is meant.
const NAMES: &[(u32, &str, Option<u32>)] = &[
    // own blocks
    (1, "A", Some(10)),
    (1, "C", Some(11)),
    (2, "B", Some(12)),
    (2, "E", Some(13)),
    (3, "D", Some(14)),
    (0, "Electrical", Some(0)),
    (0, "ElectricPower", Some(1)),
    (0, "Diode", Some(8)),
    (0, "LED", Some(9)),
    // imported ones
    (1, "B", Some(12)),
    (1, "LED", Some(9)),
    (1, "SPI", Some(4)),
    (2, "D", Some(14)),
    (2, "A", Some(10)),
    // blocks of other files
    (1, "D", None),
    (1, "E", None),
    (1, "Diode", None),
    (2, "C", None),
    (2, "LED", None),
    (3, "A", None),
    (3, "B", None),
    (3, "LED", None),
    (0, "A", None),
    (0, "D", None),
    // names of other things
    (1, "s", None),
    (2, "v", None),
    (2, "V", None),
    (0, "line", None),
    (0, "V", None),
    (1, "abs", None),
    (0, "max", None),
    // no names at all
    (1, "", None),
    (1, "a", None),
    (1, "AA", None),
    (1, "LE", None),
    (1, "LEDs", None),
    (1, " A", None),
    (1, "module", None),
    (1, "main.ato", None),
    (1, "b.ato:B", None),
    (0, "<library>", None),
    (1, "\u{e9}", None),
    // files that are not there
    (4, "A", None),
    (4, "D", None),
    (4, "LED", None),
    (5, "", None),
    (14, "D", None),
    (2_147_483_648, "A", None),
    (4_294_967_295, "A", None),
];

/// The program of files.
fn program_of(alloc: Global, files: &[(&str, &str)]) -> Result<Program, LoadFault> {
    let mut shelf = Asked::new(alloc, files_of(alloc, files)?);
    loaded(alloc, &mut shelf, ENTRY)
}

/// The block that a name means. It has no clause, so that what the call promises is read here once.
fn found(program: &Program, file: u32, name: &str) -> Option<u32> {
    program.find_block(FileId(file), name)
}

#[test]
fn names_mean_blocks(rt: HostRuntime) -> Result<(), Fail> {
    let program = program_of(rt.alloc(), FILES)?;
    for (file, name, want) in NAMES {
        assert_eq!(rt; found(&program, *file, name), *want, "{file} {name}");
    }
    Ok(())
}

/// An entry without a block.
const FEW: Texts = &[("main.ato", "import LED\n")];

/// The same in that entry's program.
const IN_FEW: &[(u32, &str, Option<u32>)] = &[
    (1, "LED", Some(9)),
    (1, "Diode", None),
    (1, "M", None),
    (0, "LED", Some(9)),
    (2, "LED", None),
];

#[test]
fn names_mean_blocks_of_the_library(rt: HostRuntime) -> Result<(), Fail> {
    let program = program_of(rt.alloc(), FEW)?;
    for (file, name, want) in IN_FEW {
        assert_eq!(rt; found(&program, *file, name), *want, "{file} {name}");
    }
    Ok(())
}
