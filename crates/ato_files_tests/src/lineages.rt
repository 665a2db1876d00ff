//! The ancestors of blocks, the oldest first.
use crate::answers::{ENTRY, told};
use crate::shelves::Texts;
use std::test::Fail;

/// Files, and the line.
const CASES: &[(Texts, &str)] = &[
    (
        &[(
            "main.ato",
            "module A: pass\nmodule B from A: pass\nmodule C from B: pass\nmodule D from C: pass\n",
        )],
        "good main.ato: 1.0(10) 1.1(10 11) 1.2(10 11 12) 1.3(10 11 12 13)",
    ),
    (
        &[(
            "main.ato",
            "module D from C: pass\nmodule C from B: pass\nmodule B from A: pass\nmodule A: pass\n",
        )],
        "good main.ato: 1.0(13 12 11 10) 1.1(13 12 11) 1.2(13 12) 1.3(13)",
    ),
    (
        &[(
            "main.ato",
            "module C from B: pass\nmodule D from B: pass\nmodule A: pass\nmodule B from A: pass\nmodule E: pass\n",
        )],
        "good main.ato: 1.0(12 13 10) 1.1(12 13 11) 1.2(12) 1.3(12 13) 1.4(14)",
    ),
    // items are counted with the lines of heads between them
    (
        &[(
            "main.ato",
            "pass\nmodule A: pass\n'doc'\npass; pass\nmodule B from A:\n    pass\n\n# no item\nimport LED\ncomponent C from LED: pass\n",
        )],
        "good main.ato: 1.1(10) 1.4(10 11) 1.6(8 9 12)",
    ),
    // over three files
    (
        &[
            ("main.ato", "import B from 'b.ato'\nmodule A from B: pass\n"),
            ("b.ato", "import C from 'c.ato'\nmodule B from C: pass\n"),
            ("c.ato", "module C: pass\n"),
        ],
        "good main.ato b.ato c.ato: 1.1(12 11 10) 2.1(12 11) 3.0(12)",
    ),
    (
        &[
            (
                "main.ato",
                "import B from 'b.ato'\nmodule A: pass\nmodule C from B: pass\n",
            ),
            (
                "b.ato",
                "import A from 'main.ato'\nmodule B from A: pass\nmodule D from B: pass\n",
            ),
        ],
        "good main.ato b.ato: 1.1(10) 1.2(10 12 11) 2.1(10 12) 2.2(10 12 13)",
    ),
    // up into the library
    (
        &[
            (
                "main.ato",
                "import Red from 'b.ato'\ncomponent Bright from Red: pass\n",
            ),
            (
                "b.ato",
                "import LED\ncomponent Red from LED: pass\nimport Diode\ncomponent Zener from Diode: pass\n",
            ),
        ],
        "good main.ato b.ato: 1.1(8 9 11 10) 2.1(8 9 11) 2.3(8 12)",
    ),
    (
        &[(
            "main.ato",
            "import Electrical, I2C, Resistor\ninterface E from Electrical: pass\ninterface I from I2C: pass\ncomponent R from Resistor: pass\n",
        )],
        "good main.ato: 1.1(0 10) 1.2(3 11) 1.3(5 12)",
    ),
    // through names that stand in other files too
    (
        &[
            ("main.ato", "import A from 'b.ato'\nmodule B from A: pass\n"),
            (
                "b.ato",
                "import C from 'c.ato'\nmodule A from C: pass\nmodule B: pass\n",
            ),
            (
                "c.ato",
                "module A: pass\nmodule B from A: pass\nmodule C from B: pass\n",
            ),
        ],
        "good main.ato b.ato c.ato: 1.1(13 14 15 11 10) 2.1(13 14 15 11) 2.2(12) 3.0(13) 3.1(13 14) 3.2(13 14 15)",
    ),
];

#[test]
fn lineages_of_blocks(rt: HostRuntime) -> Result<(), Fail> {
    for (files, want) in CASES {
        let got = told(rt.alloc(), files, ENTRY)?;
        assert_eq!(rt; got.as_str(), *want, "{files:?}");
    }
    Ok(())
}
