//! What stands in which kind of block: parents, pins and instances.
use crate::answers::{ENTRY, told, told_one};
use crate::shelves::Texts;
use std::test::Fail;

/// Entries with parents.
const PARENTS: &[(&str, &str)] = &[
    (
        "interface I: pass\ncomponent C from I: pass\n",
        "F18 WrongKind 1:35..36 of main.ato",
    ),
    (
        "interface I: pass\nmodule M from I: pass\n",
        "F18 WrongKind 1:32..33 of main.ato",
    ),
    (
        "component C: pass\ninterface I from C: pass\n",
        "F18 WrongKind 1:35..36 of main.ato",
    ),
    (
        "interface I from M: pass\nmodule M: pass\n",
        "F18 WrongKind 1:17..18 of main.ato",
    ),
    (
        "import Electrical\ncomponent C from Electrical: pass\n",
        "F18 WrongKind 1:35..45 of main.ato",
    ),
    (
        "import SPI\nmodule M from SPI: pass\n",
        "F18 WrongKind 1:25..28 of main.ato",
    ),
    (
        "import LED\ninterface I from LED: pass\n",
        "F18 WrongKind 1:28..31 of main.ato",
    ),
    // each block has its own
    (
        "interface I: pass\nmodule M from I: pass\nmodule N from M: pass\n",
        "F18 WrongKind 1:32..33 of main.ato",
    ),
    (
        "module N from M: pass\nmodule M from I: pass\ninterface I: pass\n",
        "F18 WrongKind 1:36..37 of main.ato",
    ),
    (
        "component A: pass\ncomponent B from A: pass\n",
        "good main.ato: 1.0(10) 1.1(10 11)",
    ),
    (
        "module A: pass\nmodule B from A: pass\n",
        "good main.ato: 1.0(10) 1.1(10 11)",
    ),
    (
        "component A: pass\nmodule B from A: pass\n",
        "good main.ato: 1.0(10) 1.1(10 11)",
    ),
    (
        "module A: pass\ncomponent B from A: pass\n",
        "good main.ato: 1.0(10) 1.1(10 11)",
    ),
    (
        "interface A: pass\ninterface B from A: pass\n",
        "good main.ato: 1.0(10) 1.1(10 11)",
    ),
    (
        "import I2C\ninterface B from I2C: pass\n",
        "good main.ato: 1.1(3 10)",
    ),
    (
        "import LED\nmodule B from LED: pass\n",
        "good main.ato: 1.1(8 9 10)",
    ),
];

/// Entries with pins.
const PINS: &[(&str, &str)] = &[
    ("module M: pin 1\n", "F18 WrongKind 1:14..15 of main.ato"),
    (
        "module M:\n    signal a\n    pin a\n",
        "F18 WrongKind 1:31..32 of main.ato",
    ),
    (
        "module M: pin 'a b'; pin 2\n",
        "F18 WrongKind 1:14..19 of main.ato",
    ),
    ("interface I: pin 1\n", "F18 WrongKind 1:17..18 of main.ato"),
    (
        "interface I:\n    signal a\n    pin \"\"\n",
        "F18 WrongKind 1:34..36 of main.ato",
    ),
    // an end of a connection
    (
        "module M: signal a ~ pin 12\n",
        "F18 WrongKind 1:25..27 of main.ato",
    ),
    (
        "module M: a ~ pin b\n",
        "F18 WrongKind 1:18..19 of main.ato",
    ),
    (
        "interface M: a.b.3 ~ pin '''c'''\n",
        "F18 WrongKind 1:25..32 of main.ato",
    ),
    (
        "module M: pin 1 ~ pin 2\n",
        "F18 WrongKind 1:14..15 of main.ato",
    ),
    (
        "interface M: pin 1 ~ signal a\n",
        "F18 WrongKind 1:17..18 of main.ato",
    ),
    // kinds are the block's own
    (
        "component C: pin 1\nmodule M from C: pin 1\n",
        "F18 WrongKind 1:40..41 of main.ato",
    ),
    (
        "module M: pin 1\ncomponent C from M: pin 1\n",
        "F18 WrongKind 1:14..15 of main.ato",
    ),
    (
        "component C: pin 1; pin 2\nmodule M: pin 1\ncomponent D: pin 1\n",
        "F18 WrongKind 1:40..41 of main.ato",
    ),
    (
        "component C: signal a ~ pin 1; pin a ~ pin 'a'; b ~ pin 2\n",
        "good main.ato: 1.0(10)",
    ),
    (
        "component C: pin 1\nmodule M from C: pass\n",
        "good main.ato: 1.0(10) 1.1(10 11)",
    ),
    (
        "module M: pass\ncomponent C from M: pin 1\n",
        "good main.ato: 1.0(10) 1.1(10 11)",
    ),
    (
        "module M: a.1 ~ b.2\ninterface I: a.b.1 ~ c\n",
        "good main.ato: 1.0(10) 1.1(11)",
    ),
    (
        "interface I: signal a; a = 5; 'pin 1'\n",
        "good main.ato: 1.0(10)",
    ),
];

/// Entries with instances.
const INSTANCES: &[(&str, &str)] = &[
    (
        "module M: pass\ninterface I: a = new M\n",
        "F18 WrongKind 1:36..37 of main.ato",
    ),
    (
        "interface I: a = new C\ncomponent C: pass\n",
        "F18 WrongKind 1:21..22 of main.ato",
    ),
    (
        "import LED\ninterface I: a = new LED\n",
        "F18 WrongKind 1:32..35 of main.ato",
    ),
    (
        "import LED, SPI\ninterface I:\n    s = new SPI\n    a = new LED; b = new LED\n",
        "F18 WrongKind 1:57..60 of main.ato",
    ),
    (
        "import LED\ninterface I from J: signal b\ninterface J: a = new LED\n",
        "F18 WrongKind 1:61..64 of main.ato",
    ),
    ("interface I: a = new I\n", "good main.ato: 1.0(10)"),
    (
        "import SPI\ninterface I: a = new SPI\ninterface J from I: b = new I\n",
        "good main.ato: 1.1(10) 1.2(10 11)",
    ),
    // a replacement is looked at later
    (
        "import LED\ninterface I: a -> LED\n",
        "good main.ato: 1.1(10)",
    ),
    // elsewhere anything goes
    (
        "import LED, SPI\nmodule M:\n    a = new LED\n    b = new SPI\n    c = new M\n    d = new C\ncomponent C: a = new LED; b = new SPI; c = new M\n",
        "good main.ato: 1.1(10) 1.2(11)",
    ),
];

#[test]
fn kinds_of_one_file(rt: HostRuntime) -> Result<(), Fail> {
    for rows in [PARENTS, PINS, INSTANCES].iter() {
        for (text, want) in *rows {
            let got = told_one(rt.alloc(), text)?;
            assert_eq!(rt; got.as_str(), *want, "{text}");
        }
    }
    Ok(())
}

/// Several files, and the line.
const FILES: &[(Texts, &str)] = &[
    (
        &[
            (
                "main.ato",
                "import LED from 'b.ato'\ncomponent C from LED: pass\n",
            ),
            ("b.ato", "interface LED: pass\n"),
        ],
        "F18 WrongKind 1:41..44 of main.ato b.ato",
    ),
    (
        &[
            (
                "main.ato",
                "import SPI from 'b.ato'\nmodule C from SPI: pass\n",
            ),
            ("b.ato", "module SPI: pass\n"),
        ],
        "good main.ato b.ato: 1.1(11 10) 2.0(11)",
    ),
    (
        &[
            (
                "main.ato",
                "import SPI from 'b.ato'\ninterface I: s = new SPI\n",
            ),
            ("b.ato", "module SPI: pass\n"),
        ],
        "F18 WrongKind 1:45..48 of main.ato b.ato",
    ),
    (
        &[
            ("main.ato", "import I from 'b.ato'\nmodule M: i = new I\n"),
            (
                "b.ato",
                "import M from 'main.ato'\ninterface I: m = new M\n",
            ),
        ],
        "F18 WrongKind 2:46..47 of main.ato b.ato",
    ),
    (
        &[
            ("main.ato", "import B from 'b.ato'\nmodule M: b = new B\n"),
            (
                "b.ato",
                "component A: pin 1\nmodule B:\n    a = new A\n    a.1 ~ pin 1\n",
            ),
        ],
        "F18 WrongKind 2:57..58 of main.ato b.ato",
    ),
];

#[test]
fn kinds_over_files(rt: HostRuntime) -> Result<(), Fail> {
    for (files, want) in FILES {
        let got = told(rt.alloc(), files, ENTRY)?;
        assert_eq!(rt; got.as_str(), *want, "{files:?}");
    }
    Ok(())
}
