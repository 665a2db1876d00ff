//! The one of several faults of names that stands: the least by file, then by offset, then by kind.
use crate::answers::{ENTRY, told, told_one};
use crate::shelves::Texts;
use std::test::Fail;

/// Entries with faults at several offsets.
const OFFSETS: &[(&str, &str)] = &[
    ("import Foo, Foo\n", "F11 NameUnknown 1:7..10 of main.ato"),
    (
        "import LED, LED, Foo\n",
        "F12 NameTwice 1:12..15 of main.ato",
    ),
    (
        "import Foo, LED, LED\n",
        "F11 NameUnknown 1:7..10 of main.ato",
    ),
    // imports behind blocks
    (
        "module A:\n    signal a\n    a: V\nimport Foo\n",
        "F12 NameTwice 1:27..28 of main.ato",
    ),
    (
        "module A: pin 1\nimport Foo, Foo\n",
        "F18 WrongKind 1:14..15 of main.ato",
    ),
    (
        "module A from A: pass\nmodule A: pass\n",
        "F13 SuperLoop 1:14..15 of main.ato",
    ),
    (
        "import Foo\nmodule A:\n    signal a\n    a: V\n",
        "F11 NameUnknown 1:7..10 of main.ato",
    ),
    // a block's name, its parent, and what stands in it
    (
        "module A: pass\nmodule A from B: c = new C\n",
        "F12 NameTwice 1:22..23 of main.ato",
    ),
    (
        "module A from B: c = new C\nmodule A: pass\n",
        "F11 NameUnknown 1:14..15 of main.ato",
    ),
    (
        "interface I: pass\nmodule A from I: pin 1\nmodule A: pass\n",
        "F18 WrongKind 1:32..33 of main.ato",
    ),
    (
        "module A:\n    signal a\n    a = new B\n",
        "F12 NameTwice 1:27..28 of main.ato",
    ),
    (
        "module A:\n    a = new B\n    a = new B\n",
        "F11 NameUnknown 1:22..23 of main.ato",
    ),
    (
        "module A:\n    pin 1\n    b = new B\n",
        "F18 WrongKind 1:18..19 of main.ato",
    ),
    (
        "module A:\n    b = new B\n    pin 1\n",
        "F11 NameUnknown 1:22..23 of main.ato",
    ),
    (
        "module A: a: V; b ~ signal a; c ~ pin 1\n",
        "F12 NameTwice 1:27..28 of main.ato",
    ),
    (
        "module A: a: V; pin 1 ~ signal a\n",
        "F18 WrongKind 1:20..21 of main.ato",
    ),
    (
        "module A: a: V; signal a ~ pin 1\n",
        "F12 NameTwice 1:23..24 of main.ato",
    ),
    (
        "import LED\ninterface I:\n    a = new LED\n    a = new LED\n",
        "F18 WrongKind 1:36..39 of main.ato",
    ),
    (
        "import LED\ninterface I:\n    signal a\n    a = new LED\n",
        "F12 NameTwice 1:41..42 of main.ato",
    ),
    (
        "import LED\ninterface I: a -> Foo; b = new LED\n",
        "F11 NameUnknown 1:29..32 of main.ato",
    ),
    // blocks in source order, whatever their lineages are
    (
        "module C from B: pass\nmodule B from A: pass\ninterface A: pin 1\n",
        "F18 WrongKind 1:36..37 of main.ato",
    ),
    (
        "module C from B: signal a\nmodule B from A: pin 1\nmodule A: a: V\n",
        "F12 NameTwice 1:24..25 of main.ato",
    ),
    (
        "module A: pass\nmodule A: pin 1\nmodule B from B: pass\n",
        "F12 NameTwice 1:22..23 of main.ato",
    ),
    // of two blocks of a name the first is meant
    (
        "module A: pass\ninterface A: pass\nmodule B from A: pass\n",
        "F12 NameTwice 1:25..26 of main.ato",
    ),
    (
        "interface J: a = new I\ninterface I: pass\nmodule I: pass\n",
        "F12 NameTwice 1:48..49 of main.ato",
    ),
    (
        "interface J: a = new I\nmodule I: pass\ninterface I: pass\n",
        "F18 WrongKind 1:21..22 of main.ato",
    ),
];

/// Entries with two faults at one place.
const KINDS: &[(&str, &str)] = &[
    (
        "module A from B: pass\ninterface B from A: pass\n",
        "F13 SuperLoop 1:14..15 of main.ato",
    ),
    (
        "interface A from B: pass\nmodule B from B: pass\n",
        "F13 SuperLoop 1:17..18 of main.ato",
    ),
];

#[test]
fn faults_of_one_file(rt: HostRuntime) -> Result<(), Fail> {
    for rows in [OFFSETS, KINDS].iter() {
        for (text, want) in *rows {
            let got = told_one(rt.alloc(), text)?;
            assert_eq!(rt; got.as_str(), *want, "{text}");
        }
    }
    Ok(())
}

/// Several files, and the line.
const FILES: &[(Texts, &str)] = &[
    // twice and unknown
    (
        &[
            ("main.ato", "import LED\nimport LED from 'b.ato'\n"),
            ("b.ato", "import LED\n"),
        ],
        "F11 NameUnknown 1:18..21 of main.ato b.ato",
    ),
    (
        &[
            ("main.ato", "module A: pass\nfrom 'b.ato' import B, A, C\n"),
            ("b.ato", "module B: pass\n"),
        ],
        "F11 NameUnknown 1:38..39 of main.ato b.ato",
    ),
    (
        &[
            (
                "main.ato",
                "import A from 'b.ato'\nimport A from 'c.ato'\nmodule B from A: pass\n",
            ),
            ("b.ato", "module A: pass\n"),
            ("c.ato", "interface B: pass\n"),
        ],
        "F11 NameUnknown 1:29..30 of main.ato b.ato c.ato",
    ),
    // by file before offset
    (
        &[
            (
                "main.ato",
                "import B from 'b.ato'\nmodule A: pass\nmodule M:\n    pin 1\n",
            ),
            ("b.ato", "import Foo\nmodule B: pass\n"),
        ],
        "F18 WrongKind 1:55..56 of main.ato b.ato",
    ),
    (
        &[
            ("main.ato", "import C from 'c.ato'; import B from 'b.ato'\n"),
            ("b.ato", "import Foo, Foo\nmodule B: pass\n"),
            (
                "c.ato",
                "# far off\nmodule C:\n    signal a\n    signal b\n    b: V\n",
            ),
        ],
        "F12 NameTwice 2:50..51 of main.ato c.ato b.ato",
    ),
    (
        &[
            ("main.ato", "import B from 'b.ato'\n"),
            (
                "b.ato",
                "import C from 'c.ato'\nmodule B from C: signal a\n",
            ),
            ("c.ato", "import Foo\nmodule C: a: V\n"),
        ],
        "F12 NameTwice 2:46..47 of main.ato b.ato c.ato",
    ),
    (
        &[
            (
                "main.ato",
                "import B from 'b.ato'\nmodule M: b = new B\nmodule N from O: pass\n",
            ),
            ("b.ato", "module B from B: pin 1\n"),
        ],
        "F11 NameUnknown 1:56..57 of main.ato b.ato",
    ),
    // a block that is imported and unsound is known
    (
        &[
            ("main.ato", "import B from 'b.ato'\nmodule M from B: pass\n"),
            ("b.ato", "interface B: pin 1\n"),
        ],
        "F18 WrongKind 1:36..37 of main.ato b.ato",
    ),
    (
        &[
            ("main.ato", "import B from 'b.ato'\nmodule M: b = new B\n"),
            ("b.ato", "module B: pass\nmodule B: pass\n"),
        ],
        "F12 NameTwice 2:22..23 of main.ato b.ato",
    ),
    // of two imports of a name the first is meant
    (
        &[
            (
                "main.ato",
                "import A from 'b.ato'\nmodule M from A: pass\nimport A from 'c.ato'\n",
            ),
            ("b.ato", "interface A: pass\n"),
            ("c.ato", "module A: pass\n"),
        ],
        "F18 WrongKind 1:36..37 of main.ato b.ato c.ato",
    ),
    (
        &[
            (
                "main.ato",
                "import A from 'b.ato'\nmodule M from A: pass\nimport A from 'c.ato'\n",
            ),
            ("b.ato", "module A: pass\n"),
            ("c.ato", "interface A: pass\n"),
        ],
        "F12 NameTwice 1:51..52 of main.ato b.ato c.ato",
    ),
    // a file's own block is meant before an import
    (
        &[
            (
                "main.ato",
                "module M from A: pass\nimport A from 'b.ato'\ninterface A: pass\n",
            ),
            ("b.ato", "module A: pass\n"),
        ],
        "F18 WrongKind 1:14..15 of main.ato b.ato",
    ),
    // an import that gives nothing is at fault, and not where its name is used; that a later one gives it does not help
    (
        &[
            (
                "main.ato",
                "module M from A: pass\nimport A from 'b.ato'\nimport A from 'c.ato'\n",
            ),
            ("b.ato", ""),
            ("c.ato", "module A: pass\n"),
        ],
        "F11 NameUnknown 1:29..30 of main.ato b.ato c.ato",
    ),
];

#[test]
fn faults_of_several_files(rt: HostRuntime) -> Result<(), Fail> {
    for (files, want) in FILES {
        let got = told(rt.alloc(), files, ENTRY)?;
        assert_eq!(rt; got.as_str(), *want, "{files:?}");
    }
    Ok(())
}
