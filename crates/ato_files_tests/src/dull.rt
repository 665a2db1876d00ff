//! Entries in which next to nothing stands, and shelves without memory.
use crate::answers::{ENTRY, loaded, told_of, told_one};
use crate::shelves::{Asked, Texts, files_of};
use ato_base::NoMemory;
use ato_files::LoadFault;
use std::alloc::Global;
use std::test::Fail;

/// Entries, and the line.
const CASES: &[(&str, &str)] = &[
    ("", "good main.ato:"),
    ("\n", "good main.ato:"),
    ("\r\n\r\n", "good main.ato:"),
    ("  \n\t\n   ", "good main.ato:"),
    ("# only a comment", "good main.ato:"),
    ("# one\n  # two\n\n#\n", "good main.ato:"),
    ("\u{feff}", "good main.ato:"),
    ("\u{feff}# one\n", "good main.ato:"),
    (
        "\u{feff}import LED\nmodule M: pass",
        "good main.ato: 1.1(10)",
    ),
    ("pass", "good main.ato:"),
    ("'doc'\n", "good main.ato:"),
    ("'''\nimport Foo\n'''", "good main.ato:"),
    ("pass;\r\nmodule M:\r\n  pass\r\n", "good main.ato: 1.1(10)"),
    ("\u{0}", "F2 BadChar 1:0..1 of main.ato"),
    ("\r", "F2 BadChar 1:0..1 of main.ato"),
    ("\u{feff}\u{feff}", "F2 BadChar 1:3..6 of main.ato"),
    ("\u{feff}import Foo", "F11 NameUnknown 1:10..13 of main.ato"),
    (";", "F6 Syntax 1:0..1 of main.ato"),
    ("module", "F6 Syntax 1:6..6 of main.ato"),
    ("import", "F6 Syntax 1:6..6 of main.ato"),
];

#[test]
fn dull_entries(rt: HostRuntime) -> Result<(), Fail> {
    for (text, want) in CASES {
        let got = told_one(rt.alloc(), text)?;
        assert_eq!(rt; got.as_str(), *want, "{text:?}");
    }
    Ok(())
}

/// Two files.
const FILES: Texts = &[
    ("main.ato", "import B from 'b.ato'\nmodule A from B: pass\n"),
    ("b.ato", "module B: pass\n"),
];

/// Their line.
const GOOD: &str = "good main.ato b.ato: 1.1(11 10) 2.0(11)";

#[test]
fn a_shelf_is_read_again(rt: HostRuntime) -> Result<(), Fail> {
    let alloc = rt.alloc();
    let mut shelf = Asked::new(alloc, files_of(alloc, FILES)?);
    let mut got = told_of(alloc, &mut shelf, ENTRY)?;
    assert_eq!(rt; got.as_str(), GOOD);
    got = told_of(alloc, &mut shelf, ENTRY)?;
    assert_eq!(rt;
        got.as_str(),
        "good main.ato b.ato main.ato? b.ato?: 1.1(11 10) 2.0(11)"
    );
    Ok(())
}

/// Whether loading these files finds no memory where the call of this number finds none.
fn is_out(alloc: Global, call: usize) -> Result<bool, NoMemory> {
    let mut shelf = Asked::new(alloc, files_of(alloc, FILES)?).starving(call);
    Ok(matches!(&loaded(alloc, &mut shelf, ENTRY), Err(LoadFault::NoMemory)))
}

#[test]
fn a_shelf_may_have_no_memory(rt: HostRuntime) -> Result<(), Fail> {
    for (call, want) in [(1, true), (2, true), (3, false)].iter() {
        assert_eq!(rt; is_out(rt.alloc(), *call)?, *want, "{call}");
    }
    Ok(())
}
