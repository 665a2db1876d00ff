//! Which files are loaded, and in which order.
use crate::answers::{ENTRY, told};
use crate::shelves::Texts;
use std::test::Fail;

/// Files, and the line of the entry `main.ato`.
type Case = (Texts, &'static str);

/// Files that name themselves and each other. Each is read once.
const ROUND: &[Case] = &[
    (
        &[("main.ato", "import A from 'main.ato'\nmodule A: pass\n")],
        "F12 NameTwice 1:32..33 of main.ato",
    ),
    (
        &[("main.ato", "import A from 'main.ato'\n")],
        "F11 NameUnknown 1:7..8 of main.ato",
    ),
    (
        &[
            ("main.ato", "import B from 'b.ato'\n"),
            ("b.ato", "import C from 'b.ato'\nmodule B: pass\n"),
        ],
        "F11 NameUnknown 2:7..8 of main.ato b.ato",
    ),
    (
        &[
            ("main.ato", "import B from 'b.ato'\nmodule A: pass\n"),
            ("b.ato", "import A from 'main.ato'\nmodule B: pass\n"),
        ],
        "good main.ato b.ato: 1.1(10) 2.1(11)",
    ),
    (
        &[
            ("b.ato", "import A from 'main.ato'\nmodule B from A: pass\n"),
            ("main.ato", "import B from 'b.ato'\nmodule A: b = new B\n"),
        ],
        "good main.ato b.ato: 1.1(10) 2.1(10 11)",
    ),
    (
        &[
            ("main.ato", "import B from 'b.ato'\nmodule A: pass\n"),
            ("b.ato", "import C from 'c.ato'\nmodule B: pass\n"),
            ("c.ato", "import A from 'main.ato'\nmodule C: pass\n"),
        ],
        "good main.ato b.ato c.ato: 1.1(10) 2.1(11) 3.1(12)",
    ),
];

/// Near files come before farther ones, and among these the order is that of the first mentions.
const ORDER: &[Case] = &[
    (
        &[
            ("main.ato", "import B from 'b.ato'\nimport C from 'c.ato'\n"),
            ("b.ato", "import D from 'd.ato'\nmodule B: pass\n"),
            ("c.ato", "module C: pass\n"),
            ("d.ato", "module D: pass\n"),
        ],
        "good main.ato b.ato c.ato d.ato: 2.1(10) 3.0(11) 4.0(12)",
    ),
    (
        &[
            ("d.ato", "import C from 'c.ato'\nmodule D: pass\n"),
            ("main.ato", "import B from 'b.ato'\nimport C from 'c.ato'\n"),
            ("e.ato", "import B from 'b.ato'\nmodule E from B: pass\n"),
            ("c.ato", "from 'e.ato' import E\nmodule C: pass\n"),
            ("b.ato", "import D from 'd.ato'\nmodule B: pass\n"),
        ],
        "good main.ato b.ato c.ato d.ato e.ato: 2.1(10) 3.1(11) 4.1(12) 5.1(10 13)",
    ),
    // b.ato mentions a file first that the entry mentions too, but later
    (
        &[
            (
                "main.ato",
                "import B from 'b.ato'\nmodule M: pass\nimport C from 'c.ato'\n",
            ),
            (
                "b.ato",
                "import D from 'd.ato'; import C from 'c.ato'\nmodule B: pass\n",
            ),
            ("c.ato", "module C: pass\n"),
            ("d.ato", "module D: pass\n"),
        ],
        "good main.ato b.ato c.ato d.ato: 1.1(10) 2.1(11) 3.0(12) 4.0(13)",
    ),
    // the order of mentions is not that of names
    (
        &[
            (
                "main.ato",
                "import Z from 'z.ato'; import A from 'a.ato'\nimport M from 'm.ato'\n",
            ),
            ("a.ato", "module A: pass\n"),
            ("m.ato", "module M: pass\n"),
            ("z.ato", "module Z: pass\n"),
        ],
        "good main.ato z.ato a.ato m.ato: 2.0(10) 3.0(11) 4.0(12)",
    ),
    (
        &[
            ("main.ato", "import B from 'b.ato'\n"),
            ("b.ato", "import C from 'c.ato'\nmodule B: pass\n"),
            ("c.ato", "import D from 'd.ato'\nmodule C: pass\n"),
            ("d.ato", "import B from 'b.ato'\nmodule D: pass\n"),
        ],
        "good main.ato b.ato c.ato d.ato: 2.1(10) 3.1(11) 4.1(12)",
    ),
];

/// What mentions a file, and what does not.
const MENTIONS: &[Case] = &[
    (
        &[
            (
                "main.ato",
                "from 'b.ato' import B, C; import D from \"b.ato\"; import E from '''b.ato'''\n",
            ),
            (
                "b.ato",
                "module B: pass\nmodule C: pass\nmodule D: pass\nmodule E: pass\n",
            ),
        ],
        "good main.ato b.ato: 2.0(10) 2.1(11) 2.2(12) 2.3(13)",
    ),
    // documentation and statements mention none
    (
        &[
            (
                "main.ato",
                "'b.ato'\npass; 'c.ato'\nmodule M:\n    'd.ato'\n    kind = 'e.ato'\n",
            ),
            ("b.ato", "("),
            ("c.ato", "("),
            ("d.ato", "("),
            ("e.ato", "("),
        ],
        "good main.ato: 1.2(10)",
    ),
    (
        &[(
            "main.ato",
            "import LED, Diode\nimport SPI\nmodule M: pass\n",
        )],
        "good main.ato: 1.2(10)",
    ),
    (
        &[(
            "main.ato",
            "# import B from 'b.ato'\n#import C from 'c.ato'\n",
        )],
        "good main.ato:",
    ),
    // behind the block that takes it
    (
        &[
            ("main.ato", "module A from B: pass\nimport B from 'b.ato'\n"),
            ("b.ato", "module B: pass\n"),
        ],
        "good main.ato b.ato: 1.0(11 10) 2.0(11)",
    ),
    // names are compared as they are written
    (
        &[
            (
                "main.ato",
                "import B from 'b.ato'\nimport C from 'B.ato'\nimport D from 'b.ato '\n",
            ),
            ("b.ato", "module B: pass\n"),
            ("B.ato", "module C: pass\n"),
            ("b.ato ", "module D: pass\n"),
        ],
        "good main.ato b.ato B.ato b.ato : 2.0(10) 3.0(11) 4.0(12)",
    ),
    (
        &[
            (
                "main.ato",
                "import B from '\u{e9}.ato'\nimport C from 'e\u{301}.ato'\n",
            ),
            ("\u{e9}.ato", "module B: pass\n"),
            ("e\u{301}.ato", "module C: pass\n"),
        ],
        "good main.ato \u{e9}.ato e\u{301}.ato: 2.0(10) 3.0(11)",
    ),
    // strings have no escapes, and may have line ends between three quotes
    (
        &[
            ("main.ato", "import B from '''b\n'c'.ato'''\n"),
            ("b\n'c'.ato", "module B: pass\n"),
        ],
        "good main.ato b\n'c'.ato: 2.0(10)",
    ),
    // of two files of a name on the shelf the first counts
    (
        &[
            ("main.ato", "import B from 'b.ato'\n"),
            ("b.ato", "module B: pass\n"),
            ("b.ato", "("),
        ],
        "good main.ato b.ato: 2.0(10)",
    ),
    // a file of the library's name is a file like others
    (
        &[
            ("main.ato", "import LED from '<library>'\nimport Diode\n"),
            ("<library>", "module LED: pass\n"),
        ],
        "good main.ato <library>: 2.0(10)",
    ),
    (
        &[
            ("main.ato", "import Diode from '<library>'\n"),
            ("<library>", "module LED: pass\n"),
        ],
        "F11 NameUnknown 1:7..12 of main.ato <library>",
    ),
    (
        &[("main.ato", "import LED from '<library>'\n")],
        "F8 FileMissing 1:16..27 of main.ato <library>?",
    ),
];

#[test]
fn files_are_loaded_once_in_order(rt: HostRuntime) -> Result<(), Fail> {
    for rows in [ROUND, ORDER, MENTIONS].iter() {
        for (files, want) in *rows {
            let got = told(rt.alloc(), files, ENTRY)?;
            assert_eq!(rt; got.as_str(), *want, "{files:?}");
        }
    }
    Ok(())
}

/// Files, an entry, and its line.
const ENTRIES: &[(Texts, &str, &str)] = &[
    (
        &[
            ("b.ato", "import A from 'main.ato'\nmodule B from A: pass\n"),
            ("main.ato", "import B from 'b.ato'\nmodule A: pass\n"),
        ],
        "b.ato",
        "good b.ato main.ato: 1.1(11 10) 2.1(11)",
    ),
    // imports are named from the folder of the project
    (
        &[
            (
                "boards/main.ato",
                "import B from 'b.ato'; import C from 'boards/b.ato'\n",
            ),
            ("b.ato", "module B: pass\n"),
            (
                "boards/b.ato",
                "import B from 'boards/main.ato'\nmodule C: pass\n",
            ),
        ],
        "boards/main.ato",
        "F11 NameUnknown 3:7..8 of boards/main.ato b.ato boards/b.ato",
    ),
    (
        &[("<library>", "module LED from Diode: pass\nimport Diode\n")],
        "<library>",
        "good <library>: 1.0(8 10)",
    ),
    (
        &[("main", "module M: pass\n")],
        "main",
        "good main: 1.0(10)",
    ),
    (
        &[("main", "module M: pass\n")],
        "main.ato",
        "F8 FileMissing word 1 of main.ato?",
    ),
    (&[], "main.ato", "F8 FileMissing word 1 of main.ato?"),
    (
        &[("<library>", "")],
        "main.ato",
        "F8 FileMissing word 1 of main.ato?",
    ),
];

#[test]
fn any_file_may_be_the_entry(rt: HostRuntime) -> Result<(), Fail> {
    for (files, entry, want) in ENTRIES {
        let got = told(rt.alloc(), files, entry)?;
        assert_eq!(rt; got.as_str(), *want, "{files:?}");
    }
    Ok(())
}
