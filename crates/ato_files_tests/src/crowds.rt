//! Projects of many files: 256 at most.
use crate::answers::{ENTRY, told_over};
use crate::shelves::put_file;
use ato_base::{List, NoMemory, Text};
use std::alloc::Global;
use std::test::Fail;

/// Files that are made.
type Files = List<(Text, List<u8>)>;

/// Puts heads that import blocks `A` and a number from files of these numbers.
fn put_imports(text: &mut String, from: u32, to: u32) -> Result<(), NoMemory> {
    for number in from..to {
        write!(text, "import A{number} from 'f{number}.ato'\n")?;
    }
    Ok(())
}

/// Puts files of these numbers, each with its block and a line of heads.
fn put_files(
    files: &mut Files,
    alloc: Global,
    from: u32,
    to: u32,
    heads: &str,
) -> Result<(), NoMemory> {
    for number in from..to {
        let name = format!(in alloc; "f{number}.ato")?;
        let text = format!(in alloc; "{heads}\nmodule A{number}: pass\n")?;
        put_file(files, alloc, name.as_str(), text.as_bytes())?;
    }
    Ok(())
}

/// Puts the names of files.
fn put_names(out: &mut String, from: u32, to: u32) -> Result<(), NoMemory> {
    for number in from..to {
        write!(out, " f{number}.ato")?;
    }
    Ok(())
}

/// Puts the blocks of files of these numbers, each of which has one, behind a line of heads.
fn put_blocks(out: &mut String, from: u32, to: u32) -> Result<(), NoMemory> {
    for number in from..to {
        write!(
            out,
            " {}.1({})",
            number.saturating_add(1),
            number.saturating_add(9)
        )?;
    }
    Ok(())
}

/// The line of a program of an entry without a block and 255 files.
fn full(alloc: Global) -> Result<String, NoMemory> {
    let mut want = String::from_str(alloc, "good main.ato")?;
    put_names(&mut want, 1, 256)?;
    want.push_str(":")?;
    put_blocks(&mut want, 1, 256)?;
    Ok(want)
}

/// A chain of so many files, in which each but the last imports from the next.
fn chain(alloc: Global, count: u32) -> Result<Files, NoMemory> {
    let mut files = List::new(alloc);
    put_file(&mut files, alloc, ENTRY, b"import A1 from 'f1.ato'\n")?;
    for number in 1..count {
        let mut text = String::new(alloc);
        if number + 1 < count {
            put_imports(&mut text, number + 1, number + 2)?;
        } else {
            text.push_str("pass\n")?;
        }
        write!(text, "module A{number}: pass\n")?;
        let name = format!(in alloc; "f{number}.ato")?;
        put_file(&mut files, alloc, name.as_str(), text.as_bytes())?;
    }
    Ok(files)
}

#[test]
fn a_chain_of_files(rt: HostRuntime) -> Result<(), Fail> {
    let alloc = rt.alloc();
    let got = told_over(alloc, chain(alloc, 256)?, ENTRY)?;
    assert_eq!(rt; got.as_str(), full(alloc)?.as_str());
    for count in [257, 258, 300].iter() {
        // the last file that may be there is f255.ato
        let mut want = String::from_str(alloc, "F10 TooManyFiles 256:17..27 of main.ato")?;
        put_names(&mut want, 1, 256)?;
        let got = told_over(alloc, chain(alloc, *count)?, ENTRY)?;
        assert_eq!(rt; got.as_str(), want.as_str(), "{count}");
    }
    Ok(())
}

/// An entry that imports from so many files between other heads, over files of so many numbers.
fn wide(
    alloc: Global,
    before: &str,
    imports: u32,
    behind: &str,
    held: u32,
) -> Result<Files, NoMemory> {
    let mut text = String::from_str(alloc, before)?;
    put_imports(&mut text, 1, imports.saturating_add(1))?;
    text.push_str(behind)?;
    let mut files = List::new(alloc);
    put_file(&mut files, alloc, ENTRY, text.as_bytes())?;
    put_files(&mut files, alloc, 1, held.saturating_add(1), "import LED")?;
    Ok(files)
}

/// How many bytes the lines have that import from files 1 to 255: 9 of 24 bytes, 90 of 26 and 156 of 28.
const LINES: usize = 6_924;

/// Where a mention stands in the entry, behind those lines and some bytes.
fn place(alloc: Global, behind: usize, long: usize) -> Result<String, NoMemory> {
    let start = LINES + behind.min(1_000);
    let end = start + long.min(100);
    Ok(format!(in alloc; "1:{start}..{end}")?)
}

/// What stands before 255 imports and how many files there are besides the entry.
const GOOD: &[(&str, u32)] = &[
    ("", 255),
    ("pass; 'f998.ato'\n'f999.ato'\n", 255),
    ("", 300),
];

#[test]
fn a_file_that_mentions_all(rt: HostRuntime) -> Result<(), Fail> {
    let alloc = rt.alloc();
    let want = full(alloc)?;
    for row in GOOD {
        let got = told_over(alloc, wide(alloc, row.0, 255, "", row.1)?, ENTRY)?;
        assert_eq!(rt; got.as_str(), want.as_str(), "{row:?}");
    }
    Ok(())
}

/// What stands before many imports, how many there are, and how many files there are besides the entry. The fault
/// stands where file 256 is mentioned, before any file but the entry is read.
const CROWDED: &[(&str, u32, u32)] = &[
    ("", 256, 300),
    ("", 256, 0),
    ("pass\n", 257, 300),
    ("", 300, 300),
    // mentions of files that are known are no new ones, nor are other strings
    ("import B from 'main.ato'\n", 256, 300),
    ("from 'f1.ato' import B; import C from 'f9.ato'\n", 256, 300),
    (
        "'f998.ato'\n'f999.ato'\nmodule M: s = 'f997.ato'\n",
        256,
        300,
    ),
    // before all faults of names
    ("import Foo\nmodule M from N: pass\n", 256, 300),
];

#[test]
fn a_file_that_mentions_too_many(rt: HostRuntime) -> Result<(), Fail> {
    let alloc = rt.alloc();
    for row in CROWDED {
        let (before, imports, held) = *row;
        // `import A256 from ` has 17 bytes
        let at = place(alloc, before.len().min(500) + 17, 10)?;
        let want = format!(in alloc; "F10 TooManyFiles {at} of main.ato")?;
        let got = told_over(alloc, wide(alloc, before, imports, "", held)?, ENTRY)?;
        assert_eq!(rt; got.as_str(), want.as_str(), "{row:?}");
    }
    Ok(())
}

/// Heads behind 255 imports that mention one more name, where it stands in them, and how many bytes it has.
const MORE: &[(&str, usize, usize)] = &[
    ("import X from 'x.ato'\n", 14, 7),
    ("from '../x' import X\n", 5, 6),
    ("from '' import X\n", 5, 2),
    (
        "import LED; import X from 'MAIN.ato'; import Y from 'y.ato'\n",
        26,
        10,
    ),
    ("module M: pass\npass; from '''f1''' import X\n", 26, 8),
];

#[test]
fn one_more_name_is_too_many(rt: HostRuntime) -> Result<(), Fail> {
    let alloc = rt.alloc();
    for row in MORE {
        let at = place(alloc, row.1, row.2)?;
        let want = format!(in alloc; "F10 TooManyFiles {at} of main.ato")?;
        let got = told_over(alloc, wide(alloc, "", 255, row.0, 300)?, ENTRY)?;
        assert_eq!(rt; got.as_str(), want.as_str(), "{row:?}");
    }
    Ok(())
}

/// Heads behind 255 imports that mention known files again, and the fault of their names, with where it stands
/// in them and how many bytes it has.
const AGAIN: &[(&str, &str, usize, usize)] = &[
    ("import A1 from 'f1.ato'\n", "F12 NameTwice", 7, 2),
    ("import LED from \"f255.ato\"\n", "F11 NameUnknown", 7, 3),
    ("from '''main.ato''' import X\n", "F11 NameUnknown", 27, 1),
];

#[test]
fn a_known_name_is_never_too_many(rt: HostRuntime) -> Result<(), Fail> {
    let alloc = rt.alloc();
    for row in AGAIN {
        let at = place(alloc, row.2, row.3)?;
        let mut want = format!(in alloc; "{} {at} of main.ato", row.1)?;
        put_names(&mut want, 1, 256)?;
        let got = told_over(alloc, wide(alloc, "", 255, row.0, 255)?, ENTRY)?;
        assert_eq!(rt; got.as_str(), want.as_str(), "{row:?}");
    }
    Ok(())
}

/// An entry that imports from 200 files. The first of these imports from files 201 up to a number, the second
/// from that one.
fn shared(alloc: Global, last: u32) -> Result<Files, NoMemory> {
    let mut text = String::new(alloc);
    put_imports(&mut text, 1, 201)?;
    let mut files = List::new(alloc);
    put_file(&mut files, alloc, ENTRY, text.as_bytes())?;
    let mut heads = String::new(alloc);
    put_imports(&mut heads, 201, last)?;
    put_files(&mut files, alloc, 1, 2, heads.as_str())?;
    let mut heads = String::new(alloc);
    let end = last.saturating_add(1);
    put_imports(&mut heads, last, end)?;
    put_files(&mut files, alloc, 2, 3, heads.as_str())?;
    put_files(&mut files, alloc, 3, end, "pass")?;
    Ok(files)
}

/// Up to which number the files go, and the fault. `import A201 from 'f201.ato'` has 28 bytes with its line end.
const SHARED: &[(u32, &str)] = &[
    (257, "F10 TooManyFiles 2:1557..1567 of main.ato f1.ato"),
    (300, "F10 TooManyFiles 2:1557..1567 of main.ato f1.ato"),
    (256, "F10 TooManyFiles 3:17..27 of main.ato f1.ato f2.ato"),
];

#[test]
fn files_are_counted_over_all_files(rt: HostRuntime) -> Result<(), Fail> {
    let alloc = rt.alloc();
    for row in SHARED {
        let got = told_over(alloc, shared(alloc, row.0)?, ENTRY)?;
        assert_eq!(rt; got.as_str(), row.1, "{row:?}");
    }
    let got = told_over(alloc, shared(alloc, 255)?, ENTRY)?;
    assert!(rt;
        got.as_str()
            .starts_with("good main.ato f1.ato f2.ato f3.ato "),
        "{got}"
    );
    Ok(())
}
