//! Which declarations of a name go together with those of ancestors.
use crate::answers::{ENTRY, told, told_one};
use crate::shelves::Texts;
use std::test::Fail;

/// Entries with ancestors whose declarations go together.
const INHERITED: &[(&str, &str)] = &[
    (
        "module A: signal a\nmodule B from A: signal a\n",
        "good main.ato: 1.0(10) 1.1(10 11)",
    ),
    (
        "module A: a: V\nmodule B from A: a: A\n",
        "good main.ato: 1.0(10) 1.1(10 11)",
    ),
    (
        "component A: pin 1\ncomponent B from A: pin 1\n",
        "good main.ato: 1.0(10) 1.1(10 11)",
    ),
    (
        "component A: pin a\ncomponent B from A: signal a\n",
        "good main.ato: 1.0(10) 1.1(10 11)",
    ),
    (
        "module A: a = new A\nmodule B from A: a -> B\n",
        "good main.ato: 1.0(10) 1.1(10 11)",
    ),
    (
        "module A: a = new A\nmodule B from A: a = 5\n",
        "good main.ato: 1.0(10) 1.1(10 11)",
    ),
    (
        "module A: a = 5\nmodule B from A: a = new A\n",
        "good main.ato: 1.0(10) 1.1(10 11)",
    ),
    // relatives that are no ancestors
    (
        "module A: pass\nmodule B from A: signal a\nmodule C from A: a: V\n",
        "good main.ato: 1.0(10) 1.1(10 11) 1.2(10 12)",
    ),
    (
        "module A: signal a\nmodule B: a: V\n",
        "good main.ato: 1.0(10) 1.1(11)",
    ),
    (
        "module A: signal a\nmodule B:\n    b = new A\n    a: V\n",
        "good main.ato: 1.0(10) 1.1(11)",
    ),
    (
        "import Diode\ncomponent D from Diode:\n    signal anode ~ pin 1\n    max_current: A\n    kind: V\n",
        "good main.ato: 1.1(8 10)",
    ),
];

/// Entries in which a declaration does not go with one of an ancestor.
const AGAINST: &[(&str, &str)] = &[
    (
        "module A: signal a\nmodule B from A: a = new A\n",
        "F12 NameTwice 1:36..37 of main.ato",
    ),
    (
        "module A: signal a\nmodule B from A: a: V\n",
        "F12 NameTwice 1:36..37 of main.ato",
    ),
    (
        "module A: a: V\nmodule B from A: signal a\n",
        "F12 NameTwice 1:39..40 of main.ato",
    ),
    (
        "module A: a: V\nmodule B from A: b ~ signal a\n",
        "F12 NameTwice 1:43..44 of main.ato",
    ),
    (
        "module A: a = new A\nmodule B from A: a = new A\n",
        "F12 NameTwice 1:37..38 of main.ato",
    ),
    (
        "module A: a = new A\nmodule B from A: a = new B\n",
        "F12 NameTwice 1:37..38 of main.ato",
    ),
    // an ancestor farther off, with others between
    (
        "module A: a: V\nmodule B from A: b: V\nmodule C from B: signal a\n",
        "F12 NameTwice 1:61..62 of main.ato",
    ),
    (
        "module A: a: V\nmodule B from A: a: V\nmodule C from B: signal a\n",
        "F12 NameTwice 1:61..62 of main.ato",
    ),
    // one that stands later
    (
        "module B from A: a: V\nmodule A: signal a\n",
        "F12 NameTwice 1:17..18 of main.ato",
    ),
    (
        "module C from B: signal a\nmodule B from A: pass\nmodule A: a: V\n",
        "F12 NameTwice 1:24..25 of main.ato",
    ),
    // each descendant where it declares the name itself
    (
        "module A: signal a\nmodule B from A: pass\nmodule C from B: a: V\nmodule D from A: a: V\n",
        "F12 NameTwice 1:58..59 of main.ato",
    ),
    (
        "module A:\n    signal a\n    a: V\nmodule B from A: pass\n",
        "F12 NameTwice 1:27..28 of main.ato",
    ),
    (
        "module B from A: pass\nmodule A:\n    signal a\n    a: V\n",
        "F12 NameTwice 1:49..50 of main.ato",
    ),
    // of the library
    (
        "import Diode\ncomponent D from Diode: anode: V\n",
        "F12 NameTwice 1:37..42 of main.ato",
    ),
    (
        "import LED\ncomponent D from LED: signal forward_voltage\n",
        "F12 NameTwice 1:40..55 of main.ato",
    ),
    (
        "import I2C\ninterface I from I2C: scl = new I2C\n",
        "F12 NameTwice 1:33..36 of main.ato",
    ),
    (
        "import I2C\ninterface I from I2C:\n    frequency: V\n    signal sda\n",
        "F12 NameTwice 1:61..64 of main.ato",
    ),
    (
        "import LED\ncomponent D from LED:\n    p1: V\n    cathode = new D\n",
        "F12 NameTwice 1:47..54 of main.ato",
    ),
];

#[test]
fn declarations_below_others(rt: HostRuntime) -> Result<(), Fail> {
    for rows in [INHERITED, AGAINST].iter() {
        for (text, want) in *rows {
            let got = told_one(rt.alloc(), text)?;
            assert_eq!(rt; got.as_str(), *want, "{text}");
        }
    }
    Ok(())
}

/// Several files, and the line.
const FILES: &[(Texts, &str)] = &[
    (
        &[
            ("main.ato", "import A from 'b.ato'\nmodule B from A: a: V\n"),
            ("b.ato", "module A: signal a\n"),
        ],
        "F12 NameTwice 1:39..40 of main.ato b.ato",
    ),
    (
        &[
            (
                "main.ato",
                "import B from 'b.ato'\nmodule A: signal a\nmodule C from B: pass\n",
            ),
            (
                "b.ato",
                "import A from 'main.ato'\nmodule B from A: a = new A\n",
            ),
        ],
        "F12 NameTwice 2:42..43 of main.ato b.ato",
    ),
    (
        &[
            (
                "main.ato",
                "import B from 'b.ato'\nmodule A from B: signal a\n",
            ),
            ("b.ato", "import C from 'c.ato'\nmodule B from C: b: V\n"),
            ("c.ato", "module C: a: V\n"),
        ],
        "F12 NameTwice 1:46..47 of main.ato b.ato c.ato",
    ),
    // the ancestor is that of its own file
    (
        &[
            (
                "main.ato",
                "import B from 'b.ato'\nmodule A: signal a\nmodule C from B: a: V\n",
            ),
            ("b.ato", "module A: a: V\nmodule B from A: a: V\n"),
        ],
        "good main.ato b.ato: 1.1(10) 1.2(12 13 11) 2.0(12) 2.1(12 13)",
    ),
    (
        &[
            (
                "main.ato",
                "import B from 'b.ato'\nmodule A: a: V\nmodule C from B: a: V\n",
            ),
            ("b.ato", "module A: signal a\nmodule B from A: pass\n"),
        ],
        "F12 NameTwice 1:54..55 of main.ato b.ato",
    ),
];

#[test]
fn declarations_over_files(rt: HostRuntime) -> Result<(), Fail> {
    for (files, want) in FILES {
        let got = told(rt.alloc(), files, ENTRY)?;
        assert_eq!(rt; got.as_str(), *want, "{files:?}");
    }
    Ok(())
}
