//! Names of files that are not plain: they are never asked for.
use crate::answers::{ENTRY, told, told_over};
use crate::shelves::{Texts, put_file};
use ato_base::{List, NoMemory};
use std::alloc::Global;
use std::test::Fail;

/// Names that are not plain.
const ODD: &[&str] = &[
    "", ".", "..", "/", "//", "/x.ato", "x.ato/", "a//b", "./x.ato", "../x.ato", "a/.", "a/..",
    "a/./b", "a/../b", "a/b/", "a\\b", "\\", "x\\", "a/b\\c", "\0", "a\0b", "x.ato\0", "a/\0",
    "\u{e9}/",
];

/// Names that look like those, but are plain.
const EVEN: &[&str] = &[
    "a/b",
    "a/b/c.ato",
    "...",
    "a/...",
    "..a",
    ".a/b.",
    "a..b",
    " ",
    "a/ /b",
    "c:b",
    "~",
    "*",
    "#",
    "\u{1}",
    "\t",
    "\u{ff0f}x",
    "\u{e9}/\u{3a9}",
];

/// The line where the entry mentions a file of a name, which is on the shelf.
fn told_mention(alloc: Global, name: &str) -> Result<String, NoMemory> {
    let source = format!(in alloc; "import A from '{name}'\n")?;
    let mut files = List::new(alloc);
    put_file(&mut files, alloc, ENTRY, source.as_bytes())?;
    put_file(&mut files, alloc, name, b"module A: pass\n")?;
    told_over(alloc, files, ENTRY)
}

/// The line where the file of a name, which is on the shelf, is the entry.
fn told_entry(alloc: Global, name: &str) -> Result<String, NoMemory> {
    let mut files = List::new(alloc);
    put_file(&mut files, alloc, name, b"module A: pass\n")?;
    told_over(alloc, files, name)
}

#[test]
fn odd_names_are_missing(rt: HostRuntime) -> Result<(), Fail> {
    let alloc = rt.alloc();
    for name in ODD {
        // `import A from ` has 14 bytes
        let end = name.len().min(100) + 16;
        let want = format!(in alloc; "F8 FileMissing 1:14..{end} of main.ato")?;
        let got = told_mention(alloc, name)?;
        assert_eq!(rt; got.as_str(), want.as_str(), "{name:?}");
        let got = told_entry(alloc, name)?;
        assert_eq!(rt; got.as_str(), "F8 FileMissing word 1", "{name:?}");
    }
    Ok(())
}

#[test]
fn plain_names_are_asked_for(rt: HostRuntime) -> Result<(), Fail> {
    let alloc = rt.alloc();
    for name in EVEN {
        let want = format!(in alloc; "good main.ato {name}: 2.0(10)")?;
        let got = told_mention(alloc, name)?;
        assert_eq!(rt; got.as_str(), want.as_str(), "{name:?}");
        let want = format!(in alloc; "good {name}: 1.0(10)")?;
        let got = told_entry(alloc, name)?;
        assert_eq!(rt; got.as_str(), want.as_str(), "{name:?}");
    }
    Ok(())
}

/// Files that mention an odd name among others, and the line. Its fault has its place in the order of loading.
const PLACES: &[(Texts, &str)] = &[
    (
        &[
            (
                "main.ato",
                "import B from 'b.ato'; import X from '../x.ato'\n",
            ),
            ("b.ato", "module B: pass\n"),
        ],
        "F8 FileMissing 1:37..47 of main.ato b.ato",
    ),
    (
        &[(
            "main.ato",
            "import B from 'b.ato'; import X from '../x.ato'\n",
        )],
        "F8 FileMissing 1:14..21 of main.ato b.ato?",
    ),
    (
        &[(
            "main.ato",
            "import X from '../x.ato'; import B from 'b.ato'\n",
        )],
        "F8 FileMissing 1:14..24 of main.ato",
    ),
    (
        &[
            (
                "main.ato",
                "import B from 'b.ato'; import X from '../x.ato'\n",
            ),
            ("b.ato", "module B: pass\n)"),
        ],
        "F6 Syntax 2:15..16 of main.ato b.ato",
    ),
    (
        &[
            ("main.ato", "import B from 'b.ato'; import C from 'c.ato'\n"),
            ("b.ato", "from '../x.ato' import X\nmodule B: pass\n"),
            ("c.ato", "import X from '../x.ato'\nmodule C: pass\n"),
        ],
        "F8 FileMissing 2:5..15 of main.ato b.ato c.ato",
    ),
    // at the first of its mentions
    (
        &[(
            "main.ato",
            "from '/x' import A, B; import C from \"/x\"\nimport D from '/x'\n",
        )],
        "F8 FileMissing 1:5..9 of main.ato",
    ),
    (
        &[("main.ato", "import A from '''/x'''\n")],
        "F8 FileMissing 1:14..22 of main.ato",
    ),
    // another way to write a file's own name
    (
        &[("main.ato", "import A from './main.ato'\n")],
        "F8 FileMissing 1:14..26 of main.ato",
    ),
    (
        &[("main.ato", "import A from 'a/../main.ato'\n")],
        "F8 FileMissing 1:14..29 of main.ato",
    ),
    // before all faults of names
    (
        &[
            (
                "main.ato",
                "import Foo\nimport B from 'b.ato'\nmodule M from N: pass\n",
            ),
            ("b.ato", "import X from '../x.ato'\n"),
        ],
        "F8 FileMissing 2:14..24 of main.ato b.ato",
    ),
];

#[test]
fn an_odd_name_has_its_place(rt: HostRuntime) -> Result<(), Fail> {
    for (files, want) in PLACES {
        let got = told(rt.alloc(), files, ENTRY)?;
        assert_eq!(rt; got.as_str(), *want, "{files:?}");
    }
    Ok(())
}
