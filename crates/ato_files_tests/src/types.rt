//! The names of types: behind `from`, `new` and `->`.
use crate::answers::{ENTRY, told, told_one};
use crate::shelves::Texts;
use std::test::Fail;

/// Entries that name a type that they do not know.
const UNKNOWN: &[(&str, &str)] = &[
    (
        "module A from B: pass\n",
        "F11 NameUnknown 1:14..15 of main.ato",
    ),
    (
        "component A from Diode: pass\n",
        "F11 NameUnknown 1:17..22 of main.ato",
    ),
    (
        "interface A from Electrical: pass\n",
        "F11 NameUnknown 1:17..27 of main.ato",
    ),
    (
        "import LED\ncomponent A from Diode: pass\n",
        "F11 NameUnknown 1:28..33 of main.ato",
    ),
    (
        "module A: b = new B\n",
        "F11 NameUnknown 1:18..19 of main.ato",
    ),
    (
        "module A: b = new LED\n",
        "F11 NameUnknown 1:18..21 of main.ato",
    ),
    (
        "interface A: b = new Electrical\n",
        "F11 NameUnknown 1:21..31 of main.ato",
    ),
    (
        "import LED\nmodule A:\n    l = new LED; d = new Diode\n",
        "F11 NameUnknown 1:46..51 of main.ato",
    ),
    ("module A: b -> B\n", "F11 NameUnknown 1:15..16 of main.ato"),
    (
        "module A: b.c.d -> LED\n",
        "F11 NameUnknown 1:19..22 of main.ato",
    ),
    (
        "component A:\n    pin 1\n    b -> LED; c = new SPI\n",
        "F11 NameUnknown 1:32..35 of main.ato",
    ),
    // names of other things are no types
    (
        "module A:\n    signal s\n    b = new s\n",
        "F11 NameUnknown 1:35..36 of main.ato",
    ),
    (
        "module A:\n    b = new b\n",
        "F11 NameUnknown 1:22..23 of main.ato",
    ),
    (
        "module A:\n    v: V\n    b -> V\n",
        "F11 NameUnknown 1:28..29 of main.ato",
    ),
    (
        "module A: b = new abs\n",
        "F11 NameUnknown 1:18..21 of main.ato",
    ),
    (
        "module A: b = new a\n",
        "F11 NameUnknown 1:18..19 of main.ato",
    ),
    (
        "import LED\nmodule A: b = new anode\n",
        "F11 NameUnknown 1:29..34 of main.ato",
    ),
    // the first of several
    (
        "module A from B: c = new C\n",
        "F11 NameUnknown 1:14..15 of main.ato",
    ),
    (
        "module A:\n    b = new A\n    c -> C; d = new D; e -> E\n",
        "F11 NameUnknown 1:33..34 of main.ato",
    ),
    (
        "module A: pass\nmodule B: a = new C\nmodule D from E: pass\n",
        "F11 NameUnknown 1:33..34 of main.ato",
    ),
    (
        "module A: pass\nmodule D from E: pass\nmodule B: a = new C\n",
        "F11 NameUnknown 1:29..30 of main.ato",
    ),
];

/// Entries that know all types that they name.
const KNOWN: &[(&str, &str)] = &[
    (
        "module A: b = new B\nmodule B: pass\n",
        "good main.ato: 1.0(10) 1.1(11)",
    ),
    (
        "module A from B: pass\nmodule B: pass\n",
        "good main.ato: 1.0(11 10) 1.1(11)",
    ),
    ("module A: a = new A\n", "good main.ato: 1.0(10)"),
    (
        "module A:\n    b = new B\n    b -> A\nmodule B from A: pass\n",
        "good main.ato: 1.0(10) 1.1(10 11)",
    ),
    ("module A: nowhere.at.all -> A\n", "good main.ato: 1.0(10)"),
    (
        "module A: d = new LED\nimport LED\n",
        "good main.ato: 1.0(10)",
    ),
    ("module abs: a = new abs\n", "good main.ato: 1.0(10)"),
    // units are no types, and paths and expressions are looked at later
    (
        "module A:\n    v: Foo\n    w: A = 5Bar\n",
        "good main.ato: 1.0(10)",
    ),
    (
        "module A:\n    x.y ~ z\n    q = r + 5 to 1\n    assert s < t\n",
        "good main.ato: 1.0(10)",
    ),
    (
        "module A:\n    kind = 'B'\n    'C'\n    d = True\n",
        "good main.ato: 1.0(10)",
    ),
];

#[test]
fn types_of_one_file(rt: HostRuntime) -> Result<(), Fail> {
    for rows in [UNKNOWN, KNOWN].iter() {
        for (text, want) in *rows {
            let got = told_one(rt.alloc(), text)?;
            assert_eq!(rt; got.as_str(), *want, "{text}");
        }
    }
    Ok(())
}

/// Several files, and the line. Types are looked up in their own file.
const FILES: &[(Texts, &str)] = &[
    (
        &[
            ("main.ato", "import B from 'b.ato'\nmodule A from B: pass\n"),
            ("b.ato", "import C from 'c.ato'\nmodule B: c = new C\n"),
            ("c.ato", "module C: pass\n"),
        ],
        "good main.ato b.ato c.ato: 1.1(11 10) 2.1(11) 3.0(12)",
    ),
    (
        &[
            (
                "main.ato",
                "import B from 'b.ato'\nmodule A from B: d = new C\n",
            ),
            ("b.ato", "import C from 'c.ato'\nmodule B: c = new C\n"),
            ("c.ato", "module C: pass\n"),
        ],
        "F11 NameUnknown 1:47..48 of main.ato b.ato c.ato",
    ),
    (
        &[
            ("main.ato", "import B from 'b.ato'\nmodule A: c = new C\n"),
            ("b.ato", "module B: pass\nmodule C: pass\n"),
        ],
        "F11 NameUnknown 1:40..41 of main.ato b.ato",
    ),
    (
        &[
            (
                "main.ato",
                "import B from 'b.ato'\nimport LED\nmodule A: pass\n",
            ),
            ("b.ato", "module B: a = new A\n"),
        ],
        "F11 NameUnknown 2:18..19 of main.ato b.ato",
    ),
    (
        &[
            (
                "main.ato",
                "import B from 'b.ato'\nimport LED\nmodule A: d = new LED\n",
            ),
            ("b.ato", "module B from LED: pass\n"),
        ],
        "F11 NameUnknown 2:14..17 of main.ato b.ato",
    ),
    // a block of another file before one of the library
    (
        &[
            (
                "main.ato",
                "import LED from 'b.ato'\nmodule A from LED: pass\n",
            ),
            ("b.ato", "module LED: pass\n"),
        ],
        "good main.ato b.ato: 1.1(11 10) 2.0(11)",
    ),
    (
        &[
            (
                "main.ato",
                "import LED from 'b.ato'\nmodule A from LED: pass\n",
            ),
            ("b.ato", "import Diode\nmodule LED from Diode: pass\n"),
        ],
        "good main.ato b.ato: 1.1(8 11 10) 2.1(8 11)",
    ),
    // two files with a block of the same name
    (
        &[
            (
                "main.ato",
                "import A from 'c.ato'\nimport B from 'b.ato'\nmodule M from A: pass\nmodule N from B: pass\n",
            ),
            ("b.ato", "module A: pass\nmodule B from A: pass\n"),
            ("c.ato", "module A: pass\n"),
        ],
        "good main.ato c.ato b.ato: 1.2(12 10) 1.3(13 14 11) 2.0(12) 3.0(13) 3.1(13 14)",
    ),
];

#[test]
fn types_of_several_files(rt: HostRuntime) -> Result<(), Fail> {
    for (files, want) in FILES {
        let got = told(rt.alloc(), files, ENTRY)?;
        assert_eq!(rt; got.as_str(), *want, "{files:?}");
    }
    Ok(())
}
