//! The names of a file: its blocks and its imports.
use crate::answers::{ENTRY, told, told_one};
use crate::shelves::Texts;
use std::test::Fail;

/// Entries that give a name twice.
const TWICE: &[(&str, &str)] = &[
    ("import LED, LED\n", "F12 NameTwice 1:12..15 of main.ato"),
    (
        "import LED\nimport LED\n",
        "F12 NameTwice 1:18..21 of main.ato",
    ),
    (
        "import LED; import LED\n",
        "F12 NameTwice 1:19..22 of main.ato",
    ),
    (
        "import LED, Diode, LED, Diode, LED\n",
        "F12 NameTwice 1:19..22 of main.ato",
    ),
    (
        "import LED, Diode, SPI, I2C, I2C\n",
        "F12 NameTwice 1:29..32 of main.ato",
    ),
    (
        "import LED\nmodule LED: pass\n",
        "F12 NameTwice 1:18..21 of main.ato",
    ),
    (
        "import LED\ncomponent LED from Diode: pass\nimport Diode\n",
        "F12 NameTwice 1:21..24 of main.ato",
    ),
    (
        "module LED: pass\nimport LED\n",
        "F12 NameTwice 1:24..27 of main.ato",
    ),
    (
        "module LED: pass\npass; import SPI, LED\n",
        "F12 NameTwice 1:35..38 of main.ato",
    ),
    (
        "module A: pass\nmodule A: pass\n",
        "F12 NameTwice 1:22..23 of main.ato",
    ),
    (
        "module A: pass\ncomponent A: pass\ninterface A: pass\n",
        "F12 NameTwice 1:25..26 of main.ato",
    ),
    (
        "interface A: pass\nmodule B: pass\nmodule C: pass\nmodule A: pass\n",
        "F12 NameTwice 1:55..56 of main.ato",
    ),
    (
        "module abs: pass\nmodule abs: pass\n",
        "F12 NameTwice 1:24..27 of main.ato",
    ),
];

/// Entries whose names are good. The library's blocks have no names where they are not imported.
const GOOD: &[(&str, &str)] = &[
    ("module LED: pass\n", "good main.ato: 1.0(10)"),
    (
        "module A: pass\nmodule a: pass\n",
        "good main.ato: 1.0(10) 1.1(11)",
    ),
    (
        "module abs: pass\nmodule line: pass\ninterface min: pass\n",
        "good main.ato: 1.0(10) 1.1(11) 1.2(12)",
    ),
    (
        "import Electrical, ElectricPower, ElectricLogic, I2C, SPI, Resistor, Capacitor, Inductor, Diode, LED\n",
        "good main.ato:",
    ),
    (
        "import LED\nmodule M:\n    signal M\n    LED = new LED\n",
        "good main.ato: 1.1(10)",
    ),
    (
        "module A:\n    signal B\nmodule B:\n    signal B\n    A: B\n",
        "good main.ato: 1.0(10) 1.1(11)",
    ),
];

/// Entries that import what the library does not declare.
const UNKNOWN: &[(&str, &str)] = &[
    ("import Foo\n", "F11 NameUnknown 1:7..10 of main.ato"),
    (
        "import LED, Foo, Bar\n",
        "F11 NameUnknown 1:12..15 of main.ato",
    ),
    (
        "import LED\nimport Diode; import led\n",
        "F11 NameUnknown 1:32..35 of main.ato",
    ),
    ("import LE\n", "F11 NameUnknown 1:7..9 of main.ato"),
    ("import LEDs\n", "F11 NameUnknown 1:7..11 of main.ato"),
    // what the library's text has besides blocks
    ("import line\n", "F11 NameUnknown 1:7..11 of main.ato"),
    ("import kind\n", "F11 NameUnknown 1:7..11 of main.ato"),
    ("import resistor\n", "F11 NameUnknown 1:7..15 of main.ato"),
    ("import ohm\n", "F11 NameUnknown 1:7..10 of main.ato"),
    ("import abs\n", "F11 NameUnknown 1:7..10 of main.ato"),
    ("import library\n", "F11 NameUnknown 1:7..14 of main.ato"),
    (
        "module A: pass\nimport B\nmodule C: pass\n",
        "F11 NameUnknown 1:22..23 of main.ato",
    ),
];

#[test]
fn names_of_one_file(rt: HostRuntime) -> Result<(), Fail> {
    for rows in [TWICE, GOOD, UNKNOWN].iter() {
        for (text, want) in *rows {
            let got = told_one(rt.alloc(), text)?;
            assert_eq!(rt; got.as_str(), *want, "{text}");
        }
    }
    Ok(())
}

/// Several files, and the line.
const FILES: &[(Texts, &str)] = &[
    // a name from two places
    (
        &[
            ("main.ato", "import LED; import LED from 'b.ato'\n"),
            ("b.ato", "component LED: pass\n"),
        ],
        "F12 NameTwice 1:19..22 of main.ato b.ato",
    ),
    (
        &[
            ("main.ato", "from 'b.ato' import LED\nimport SPI, LED\n"),
            ("b.ato", "component LED: pass\n"),
        ],
        "F12 NameTwice 1:36..39 of main.ato b.ato",
    ),
    (
        &[
            ("main.ato", "import A from 'b.ato'\nimport A from 'c.ato'\n"),
            ("b.ato", "module A: pass\n"),
            ("c.ato", "module A: pass\n"),
        ],
        "F12 NameTwice 1:29..30 of main.ato b.ato c.ato",
    ),
    (
        &[
            ("main.ato", "from 'b.ato' import A, A\n"),
            ("b.ato", "module A: pass\n"),
        ],
        "F12 NameTwice 1:23..24 of main.ato b.ato",
    ),
    (
        &[
            ("main.ato", "import A from 'b.ato'\nmodule A: pass\n"),
            ("b.ato", "module A: pass\n"),
        ],
        "F12 NameTwice 1:29..30 of main.ato b.ato",
    ),
    (
        &[
            ("main.ato", "module A: pass\nfrom 'b.ato' import B, A\n"),
            ("b.ato", "module A: pass\nmodule B: pass\n"),
        ],
        "F12 NameTwice 1:38..39 of main.ato b.ato",
    ),
    (
        &[
            ("main.ato", "import A from 'b.ato'\n"),
            ("b.ato", "module A: pass\nmodule B: pass\nmodule A: pass\n"),
        ],
        "F12 NameTwice 2:37..38 of main.ato b.ato",
    ),
    // files have their names for themselves
    (
        &[
            ("main.ato", "import B from 'b.ato'\nmodule A: pass\n"),
            ("b.ato", "module A: pass\nmodule B: pass\n"),
        ],
        "good main.ato b.ato: 1.1(10) 2.0(11) 2.1(12)",
    ),
    (
        &[
            ("main.ato", "import LED\nimport B from 'b.ato'\n"),
            ("b.ato", "import LED, Diode\nmodule B: pass\n"),
        ],
        "good main.ato b.ato: 2.1(10)",
    ),
    (
        &[
            ("main.ato", "import LED from 'b.ato'\n"),
            ("b.ato", "component LED: pass\n"),
        ],
        "good main.ato b.ato: 2.0(10)",
    ),
    // a file gives its own blocks, and nothing that it imports
    (
        &[("main.ato", "import A from 'b.ato'\n"), ("b.ato", "")],
        "F11 NameUnknown 1:7..8 of main.ato b.ato",
    ),
    (
        &[
            ("main.ato", "from 'b.ato' import B, C, D\n"),
            ("b.ato", "module B: pass\nmodule D: pass\n"),
        ],
        "F11 NameUnknown 1:23..24 of main.ato b.ato",
    ),
    (
        &[
            ("main.ato", "import LED from 'b.ato'\n"),
            ("b.ato", "import LED\nmodule B: pass\n"),
        ],
        "F11 NameUnknown 1:7..10 of main.ato b.ato",
    ),
    (
        &[
            ("main.ato", "import C from 'b.ato'\n"),
            ("b.ato", "import C from 'c.ato'\n"),
            ("c.ato", "module C: pass\n"),
        ],
        "F11 NameUnknown 1:7..8 of main.ato b.ato c.ato",
    ),
    (
        &[
            ("main.ato", "import LED from 'b.ato'\n"),
            ("b.ato", "module B: pass\n"),
        ],
        "F11 NameUnknown 1:7..10 of main.ato b.ato",
    ),
    (
        &[
            ("main.ato", "import A from 'b.ato'\nmodule M: pass\n"),
            ("b.ato", "import A from 'main.ato'\n"),
        ],
        "F11 NameUnknown 1:7..8 of main.ato b.ato",
    ),
    // from another file than the one that has it
    (
        &[
            (
                "main.ato",
                "import B from 'b.ato'; import C from 'b.ato'; import D from 'c.ato'\n",
            ),
            ("b.ato", "module B: pass\n"),
            ("c.ato", "module C: pass\nmodule D: pass\n"),
        ],
        "F11 NameUnknown 1:30..31 of main.ato b.ato c.ato",
    ),
    (
        &[
            ("main.ato", "import B from 'b.ato'; import b from 'b.ato'\n"),
            ("b.ato", "module B:\n    signal b\n"),
        ],
        "F11 NameUnknown 1:30..31 of main.ato b.ato",
    ),
    (
        &[
            (
                "main.ato",
                "module M: pass\nimport B\nimport A from 'b.ato'\n",
            ),
            ("b.ato", "module A: pass\nmodule B: pass\n"),
        ],
        "F11 NameUnknown 1:22..23 of main.ato b.ato",
    ),
    // in a later file
    (
        &[
            ("main.ato", "import B from 'b.ato'\n"),
            ("b.ato", "module B: pass\nimport LED, M\n"),
        ],
        "F11 NameUnknown 2:27..28 of main.ato b.ato",
    ),
];

#[test]
fn names_of_several_files(rt: HostRuntime) -> Result<(), Fail> {
    for (files, want) in FILES {
        let got = told(rt.alloc(), files, ENTRY)?;
        assert_eq!(rt; got.as_str(), *want, "{files:?}");
    }
    Ok(())
}
