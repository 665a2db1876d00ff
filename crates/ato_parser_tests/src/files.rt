//! The trees of files, as `print_files` prints them.
use crate::board::{MAIN, REGULATOR, SENSOR};
use crate::print_files::{Shown, is_shown};
use crate::runs::{has_kinds, tokens_of};
use crate::source::SOURCE;
use ato_base::NoMemory;
use std::alloc::Global;
use std::test::Fail;

/// Files of lines of heads.
const HEADS: &[(&str, &str)] = &[
    ("", ""),
    ("\n\n", ""),
    ("# c\n\n  # d\n", ""),
    ("pass\n", "pass()@0..4"),
    ("\u{feff}pass", "pass()@3..7"),
    ("pass\r\n\r\npass", "pass()@0..4\npass()@8..12"),
    ("import A\n", "import(A@7..8)@0..8"),
    ("import A, B;\n", "import(A@7..8, B@10..11)@0..11;"),
    (
        "import A from 'a.ato'\n",
        "import(A@7..8 from '15..20'@14..21)@0..21",
    ),
    (
        "from 'a' import A, B",
        "from('6..7'@5..8 import A@16..17, B@19..20)@0..20",
    ),
    (
        "'doc'\n\npass; 'd'; import A\n",
        "docs('1..4'@0..5)@0..5\npass()@7..11; docs('14..15'@13..16)@13..16; import(A@25..26)@18..26",
    ),
    (
        "from 'a' import A; import B, C; import D from 'd';\npass;",
        "from('6..7'@5..8 import A@16..17)@0..17; import(B@26..27, C@29..30)@19..30; import(D@39..40 from '47..48'@46..49)@32..49;\npass()@51..55;",
    ),
];

/// Files with blocks.
const BLOCKS: &[(&str, &str)] = &[
    ("module M: pass\n", "module M@7..8: pass()@10..14"),
    ("module M:pass;", "module M@7..8: pass()@9..13;"),
    (
        "interface M from N: 'd'; pass",
        "interface M@10..11 from N@17..18: docs('21..22'@20..23)@20..23; pass()@25..29",
    ),
    (
        "component C from D:\n    pass\n",
        "component C@10..11 from D@17..18:\n  pass()@24..28",
    ),
    ("module M:\r\n\tpass\r\n", "module M@7..8:\n  pass()@12..16"),
    (
        "interface I:\n  signal a; signal b;\n  pass\n",
        "interface I@10..11:\n  point(signal(a@22..23)@15..23)@15..23; point(signal(b@32..33)@25..33)@25..33;\n  pass()@37..41",
    ),
    (
        "module M:\n pass\nmodule N: pass\n'x'",
        "module M@7..8:\n  pass()@11..15\nmodule N@23..24: pass()@26..30\ndocs('32..33'@31..34)@31..34",
    ),
    (
        "import A\nmodule M:\n    'd'\n\n    # c\n    x = (1\n+ 2)\npass",
        "import(A@7..8)@0..8\nmodule M@16..17:\n  docs('24..25'@23..26)@23..26\n  assign((x@40..41)@40..41 = group(sum(literal(<1@45..46>@45..46)@45..46 + literal(<2@49..50>@49..50)@49..50)@45..50)@44..51)@40..51\npass()@52..56",
    ),
];

#[test]
fn trees_of_files(rt: HostRuntime) -> Result<(), Fail> {
    let alloc = rt.alloc();
    for rows in [HEADS, BLOCKS].iter() {
        for row in *rows {
            assert!(rt; is_shown(alloc, "", row, Shown::File)?, "{row:?}");
        }
    }
    Ok(())
}

/// Whether the tree of a text is written out as its tokens.
fn is_kept(alloc: Global, text: &str) -> Result<bool, NoMemory> {
    has_kinds(alloc, tokens_of(alloc, text)?.as_slice())
}

#[test]
fn trees_are_written_out_as_their_tokens(rt: HostRuntime) -> Result<(), Fail> {
    for text in [REGULATOR, SENSOR, MAIN, SOURCE].iter() {
        assert!(rt; is_kept(rt.alloc(), text)?, "{text}");
    }
    Ok(())
}
