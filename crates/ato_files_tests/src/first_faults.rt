//! Faults of texts, tokens and trees in one file of several, and which comes first.
use crate::answers::{ENTRY, told, told_over};
use crate::shelves::{Texts, put_file};
use ato_base::{List, NoMemory};
use std::alloc::Global;
use std::test::Fail;

/// The second of three files, and its fault. The first imports from the other two.
const SECOND: &[(&str, &str)] = &[
    ("module B: pass\n?", "F2 BadChar 2:15..16"),
    ("\u{20ac}", "F2 BadChar 2:0..3"),
    ("module B: s = 'abc\n", "F3 OpenString 2:14..15"),
    ("pass\n''' abc\n", "F3 OpenString 2:5..6"),
    ("module B:\n    pass\n  pass\n", "F4 BadIndent 2:21..25"),
    ("module B: a = 1e40\n", "F5 WideNumber 2:14..18"),
    ("a = 5\n", "F6 Syntax 2:0..1"),
    ("module B:\n", "F6 Syntax 2:10..10"),
    ("import A B\n", "F6 Syntax 2:9..10"),
    (
        "module B: a = (((((((((((((((((((((((((((((((((((((((((((((((((((((((((((((((((1\n",
        "F7 TooDeep 2:78..79",
    ),
    // the first of several, and tokens before trees
    ("( ? 1e40 '\n", "F2 BadChar 2:2..3"),
    ("( 1e40 ?\n", "F5 WideNumber 2:2..6"),
    (") ) ' ?\n", "F3 OpenString 2:4..5"),
    (
        ") ((((((((((((((((((((((((((((((((((((((((((((((((((((((((((((((((((\n",
        "F6 Syntax 2:0..1",
    ),
    // its own imports are looked at later
    (
        "import X from '../x.ato'\nimport from 'x.ato'\n",
        "F6 Syntax 2:32..36",
    ),
    (
        "import X from 'x.ato'\nmodule B from Y: )\n",
        "F6 Syntax 2:39..40",
    ),
];

/// What else may be wrong: the third file, or nothing where it is missing.
const THIRD: &[Option<&str>] = &[Some("module C: pass\n"), Some("?"), Some("'"), None];

/// The line where the first of three files imports from the others.
fn told_three(alloc: Global, second: &[u8], third: Option<&str>) -> Result<String, NoMemory> {
    let first = b"import Foo; import B from 'b.ato'; import C from 'c.ato'\nmodule M: n = new N\n";
    let mut files = List::new(alloc);
    put_file(&mut files, alloc, ENTRY, first)?;
    put_file(&mut files, alloc, "b.ato", second)?;
    if let Some(text) = third {
        put_file(&mut files, alloc, "c.ato", text.as_bytes())?;
    }
    told_over(alloc, files, ENTRY)
}

#[test]
fn a_fault_of_the_second_file(rt: HostRuntime) -> Result<(), Fail> {
    let alloc = rt.alloc();
    for row in SECOND {
        let want = format!(in alloc; "{} of main.ato b.ato", row.1)?;
        for third in THIRD {
            let got = told_three(alloc, row.0.as_bytes(), *third)?;
            assert_eq!(rt; got.as_str(), want.as_str(), "{row:?} {third:?}");
        }
    }
    Ok(())
}

/// Bytes that are no text, and where.
const NO_TEXT: &[(&[u8], &str)] = &[
    (b"\xff", "0..1"),
    (b"module B: pass\n\x80", "15..16"),
    (b"# \xc3", "2..3"),
    // before any other fault of the file
    (b"? 1e40 ' ( \xff", "11..12"),
    (b")\n'\xe2\x84'", "3..4"),
];

#[test]
fn bytes_that_are_no_text(rt: HostRuntime) -> Result<(), Fail> {
    let alloc = rt.alloc();
    for (bytes, at) in NO_TEXT {
        let want = format!(in alloc; "F1 BadText 2:{at} of main.ato b.ato")?;
        let got = told_three(alloc, bytes, None)?;
        assert_eq!(rt; got.as_str(), want.as_str(), "{bytes:?}");
        let want = format!(in alloc; "F1 BadText 1:{at} of main.ato")?;
        let mut files = List::new(alloc);
        put_file(&mut files, alloc, ENTRY, bytes)?;
        let got = told_over(alloc, files, ENTRY)?;
        assert_eq!(rt; got.as_str(), want.as_str(), "{bytes:?}");
    }
    Ok(())
}

/// Files with several faults, of which that of the file that is loaded first stands.
const ORDER: &[(Texts, &str)] = &[
    (
        &[("main.ato", "import B from 'b.ato'\n)"), ("b.ato", "?")],
        "F6 Syntax 1:22..23 of main.ato",
    ),
    (
        &[
            ("main.ato", "import B from 'b.ato'; import C from 'c.ato'\n"),
            ("b.ato", "import D from 'd.ato'\nmodule B: pass\n"),
            ("c.ato", ")"),
            ("d.ato", "?"),
        ],
        "F6 Syntax 3:0..1 of main.ato b.ato c.ato",
    ),
    (
        &[
            ("main.ato", "import B from 'b.ato'; import C from 'c.ato'\n"),
            ("b.ato", "import D from 'd.ato'\nmodule B: pass\n"),
            ("c.ato", "module C: pass\n"),
            ("d.ato", "?"),
        ],
        "F2 BadChar 4:0..1 of main.ato b.ato c.ato d.ato",
    ),
    // faults of names come last, wherever they stand
    (
        &[
            (
                "main.ato",
                "import B, B, Foo\nimport C from 'c.ato'\nmodule M from M: pin 1\n",
            ),
            ("c.ato", "interface C from D: pin 1\n)"),
        ],
        "F6 Syntax 2:26..27 of main.ato c.ato",
    ),
];

#[test]
fn faults_come_in_the_order_of_loading(rt: HostRuntime) -> Result<(), Fail> {
    for (files, want) in ORDER {
        let got = told(rt.alloc(), files, ENTRY)?;
        assert_eq!(rt; got.as_str(), *want, "{files:?}");
    }
    Ok(())
}

/// The line of an entry of 300 imports with this behind them.
fn told_crowd(alloc: Global, behind: &str) -> Result<String, NoMemory> {
    let mut text = String::new(alloc);
    for number in 0..300 {
        write!(text, "import A{number} from 'f{number}.ato'\n")?;
    }
    text.push_str(behind)?;
    let mut files = List::new(alloc);
    put_file(&mut files, alloc, ENTRY, text.as_bytes())?;
    told_over(alloc, files, ENTRY)
}

/// What stands behind 300 imports, of 24 bytes ten times, of 26 bytes 90 times and of 28 bytes 200 times: 8,180
/// in all.
const CROWDS: &[(&str, &str)] = &[
    ("?", "F2 BadChar 1:8180..8181 of main.ato"),
    ("pass )", "F6 Syntax 1:8185..8186 of main.ato"),
    // `import A255 from ` of the file that is one too many starts at byte 6,920
    ("", "F10 TooManyFiles 1:6937..6947 of main.ato"),
];

#[test]
fn too_many_files_come_behind_the_faults_of_a_tree(rt: HostRuntime) -> Result<(), Fail> {
    for (behind, want) in CROWDS {
        let got = told_crowd(rt.alloc(), behind)?;
        assert_eq!(rt; got.as_str(), *want, "{behind}");
    }
    Ok(())
}
