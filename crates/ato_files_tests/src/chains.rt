//! Ancestors that never end.
use crate::answers::{ENTRY, told, told_one, told_over};
use crate::shelves::{Texts, put_file};
use ato_base::{List, NoMemory, Text};
use std::alloc::Global;
use std::test::Fail;

/// Entries with blocks that are their own ancestors, or descend from such.
const LOOPS: &[(&str, &str)] = &[
    (
        "module A from A: pass\n",
        "F13 SuperLoop 1:14..15 of main.ato",
    ),
    (
        "interface A from A: signal a\n",
        "F13 SuperLoop 1:17..18 of main.ato",
    ),
    (
        "module A from B: pass\nmodule B from A: pass\n",
        "F13 SuperLoop 1:14..15 of main.ato",
    ),
    (
        "module A from B: pass\ncomponent B from C: pass\nmodule C from A: pass\n",
        "F13 SuperLoop 1:14..15 of main.ato",
    ),
    // below a loop
    (
        "module C from A: pass\nmodule A from A: pass\n",
        "F13 SuperLoop 1:14..15 of main.ato",
    ),
    (
        "module A from A: pass\nmodule C from A: pass\n",
        "F13 SuperLoop 1:14..15 of main.ato",
    ),
    (
        "module D from C: pass\nmodule C from A: pass\nmodule A from B: pass\nmodule B from A: pass\n",
        "F13 SuperLoop 1:14..15 of main.ato",
    ),
    // beside others
    (
        "module A: pass\nmodule B from A: pass\nmodule C from C: pass\nmodule D from B: pass\n",
        "F13 SuperLoop 1:51..52 of main.ato",
    ),
    (
        "import LED\ncomponent B from LED: pass\ncomponent LEDs from LEDs: pass\n",
        "F13 SuperLoop 1:58..62 of main.ato",
    ),
    (
        "module A from B: pass\nmodule B from A: pass\nmodule C from D: pass\nmodule D from C: pass\n",
        "F13 SuperLoop 1:14..15 of main.ato",
    ),
    // declarations of a loop are behind its first parent
    (
        "module A from B: signal a\nmodule B from A: a: V\n",
        "F13 SuperLoop 1:14..15 of main.ato",
    ),
    (
        "module A from A:\n    signal a\n    a: V\n    b = new B\n",
        "F13 SuperLoop 1:14..15 of main.ato",
    ),
    // with a wrong kind at the same place
    (
        "module A from B: pass\ninterface B from A: pass\n",
        "F13 SuperLoop 1:14..15 of main.ato",
    ),
    // ancestors that end at a name that is not known
    (
        "module A from B: pass\nmodule B from C: pass\n",
        "F11 NameUnknown 1:36..37 of main.ato",
    ),
    // instances and replacements are no ancestors
    (
        "module A: b = new B\nmodule B: a = new A\n",
        "good main.ato: 1.0(10) 1.1(11)",
    ),
    (
        "module A: b -> B\nmodule B: b -> A\n",
        "good main.ato: 1.0(10) 1.1(11)",
    ),
];

#[test]
fn loops_of_one_file(rt: HostRuntime) -> Result<(), Fail> {
    for (text, want) in LOOPS {
        let got = told_one(rt.alloc(), text)?;
        assert_eq!(rt; got.as_str(), *want, "{text}");
    }
    Ok(())
}

/// Several files, and the line.
const FILES: &[(Texts, &str)] = &[
    (
        &[
            ("main.ato", "import B from 'b.ato'\nmodule A from B: pass\n"),
            ("b.ato", "import A from 'main.ato'\nmodule B from A: pass\n"),
        ],
        "F13 SuperLoop 1:36..37 of main.ato b.ato",
    ),
    (
        &[
            (
                "main.ato",
                "import B from 'b.ato'\nmodule A: pass\nmodule C: b = new B\n",
            ),
            ("b.ato", "import C from 'c.ato'\nmodule B from C: pass\n"),
            ("c.ato", "import B from 'b.ato'\nmodule C from B: pass\n"),
        ],
        "F13 SuperLoop 2:36..37 of main.ato b.ato c.ato",
    ),
    (
        &[
            ("main.ato", "import B from 'b.ato'\nmodule A from B: pass\n"),
            ("b.ato", "module B from B: pass\n"),
        ],
        "F13 SuperLoop 1:36..37 of main.ato b.ato",
    ),
    // blocks of one name in two files are no loop
    (
        &[
            ("main.ato", "import B from 'b.ato'\nmodule A from B: pass\n"),
            ("b.ato", "module A: pass\nmodule B from A: pass\n"),
        ],
        "good main.ato b.ato: 1.1(11 12 10) 2.0(11) 2.1(11 12)",
    ),
];

#[test]
fn loops_of_several_files(rt: HostRuntime) -> Result<(), Fail> {
    for (files, want) in FILES {
        let got = told(rt.alloc(), files, ENTRY)?;
        assert_eq!(rt; got.as_str(), *want, "{files:?}");
    }
    Ok(())
}

/// How many blocks there are in long chains.
const MANY: u32 = 1_000;

/// An entry of many blocks, each of which descends from the next, behind a text, and before another one. The last
/// one descends from the block of this number.
fn ring(
    alloc: Global,
    before: &str,
    last: u32,
    behind: &str,
) -> Result<List<(Text, List<u8>)>, NoMemory> {
    let mut text = String::from_str(alloc, before)?;
    for number in 0..MANY {
        let next = if number + 1 < MANY { number + 1 } else { last };
        write!(text, "module B{number} from B{next}: pass\n")?;
    }
    text.push_str(behind)?;
    let mut files = List::new(alloc);
    put_file(&mut files, alloc, ENTRY, text.as_bytes())?;
    Ok(files)
}

/// What stands before many blocks, the parent of the last one, what stands behind, and the line.
const RINGS: &[(&str, u32, &str, &str)] = &[
    ("", 0, "", "F13 SuperLoop 1:15..17 of main.ato"),
    ("", 1, "", "F13 SuperLoop 1:15..17 of main.ato"),
    ("", 999, "", "F13 SuperLoop 1:15..17 of main.ato"),
    (
        "module A from B999: pass\n",
        500,
        "",
        "F13 SuperLoop 1:14..18 of main.ato",
    ),
    (
        "module A from C: pass\n",
        0,
        "module C: pass\n",
        "F13 SuperLoop 1:37..39 of main.ato",
    ),
    // the lines before the last have 27,754 bytes: 9 have 24, then one 25, 89 have 26, one 27, and 899 have 28
    ("", 1_000, "", "F11 NameUnknown 1:27771..27776 of main.ato"),
    (
        "",
        1_000,
        "module B1000 from B1000: pass\n",
        "F13 SuperLoop 1:15..17 of main.ato",
    ),
];

#[test]
fn loops_of_many_blocks(rt: HostRuntime) -> Result<(), Fail> {
    for row in RINGS {
        let (before, last, behind, want) = *row;
        let files = ring(rt.alloc(), before, last, behind)?;
        let got = told_over(rt.alloc(), files, ENTRY)?;
        assert_eq!(rt; got.as_str(), want, "{row:?}");
    }
    Ok(())
}

/// The line of many blocks, each of which descends from the next, and of a last one without a parent.
fn line(alloc: Global) -> Result<String, NoMemory> {
    let mut want = String::from_str(alloc, "good main.ato:")?;
    for number in 0..MANY + 1 {
        write!(want, " 1.{number}({}", MANY + 10)?;
        for above in number..MANY {
            // the numbers go down from the last block to this one
            write!(want, " {}", MANY + 9 - (above - number))?;
        }
        want.push_str(")")?;
    }
    Ok(want)
}

#[test]
fn a_long_line_of_blocks(rt: HostRuntime) -> Result<(), Fail> {
    let alloc = rt.alloc();
    let files = ring(alloc, "", MANY, "module B1000: pass\n")?;
    let got = told_over(alloc, files, ENTRY)?;
    assert!(rt; got.as_str() == line(alloc)?.as_str());
    Ok(())
}
