//! Files without a tree of their own, and long ones.
use crate::runs::{FILE, answers, has_kinds, tokens_of};
use ato_base::{FaultKind, NoMemory, Span};
use std::alloc::Global;
use std::test::Fail;

/// What stands before parts, a part that stands there many times, and what stands behind. All are files.
const WIDE: &[(&str, &str, &str)] = &[
    ("", "", ""),
    ("", "\n", ""),
    ("", "# pass\n", ""),
    ("", "  # (\n\n", "#"),
    ("", "pass\n", ""),
    ("", "pass;\n", "pass"),
    ("", "pass; ", "\n"),
    ("pass", "; 'doc'", "\n"),
    ("import A", ", B", "\n"),
    ("from 'a.ato' import A", ", B", ";\n"),
    ("", "import A from 'a.ato'\n", ""),
    ("", "module M: pass\n", ""),
    ("", "component C from D:\n pass\n", ""),
    ("module M:\n", " pass\n", ""),
    (
        "interface I:\n",
        "    signal a ~ pin 1; pin 'b';\n",
        "    pass\n",
    ),
    ("module M: ", "pass; ", "\n"),
    ("module M: a", ".b", " ~ c\n"),
    ("module M: a ~ b", ".c", ".1\n"),
    ("module M: x = a", ".b", " ** 2\n"),
    ("module M: x = ", "1 + ", "1\n"),
    ("module M: x = ", "a - 1V to 2V - ", "-1\n"),
    ("module M: x = ", "a * ", "b ** 2\n"),
    ("module M: x = ", "a ** 2 / (b) / ", "abs(c)\n"),
    ("module M: x = min(a", ", b", ")\n"),
    ("module M: x = max(", "abs(a) + 1, ", "b)\n"),
    ("module M: assert a within 1", " | 2 +/- 1%", "\n"),
    ("module M: assert a is b", " + c", "; pass\n"),
];

/// A part many times.
fn text_of(alloc: Global, row: &(&str, &str, &str)) -> Result<String, NoMemory> {
    let (before, part, behind) = *row;
    let mut text = String::from_str(alloc, before)?;
    for _ in 0..5000 {
        text.push_str(part)?;
    }
    text.push_str(behind)?;
    Ok(text)
}

/// Whether a text has a tree of all its tokens.
fn is_wide(alloc: Global, row: &(&str, &str, &str)) -> Result<bool, NoMemory> {
    let text = text_of(alloc, row)?;
    has_kinds(alloc, tokens_of(alloc, &text)?.as_slice())
}

#[test]
fn long_files(rt: HostRuntime) -> Result<(), Fail> {
    for row in WIDE {
        assert!(rt; is_wide(rt.alloc(), row)?, "{row:?}");
    }
    Ok(())
}

/// What stands before parts, a part, and what stands behind, where the fault is.
const CUT: &[(&str, &str, &str)] = &[
    ("", "pass; ", ")"),
    ("", "# (\n", "new"),
    ("import A", ", B", " from"),
    ("module M: x = ", "a + ", ")"),
    ("module M: x = min(a", ", b", ";"),
    ("module M: a", ".b", ":"),
    ("module M:\n", " pass\n", " ;"),
];

/// Whether a text has its fault at its last byte or word.
fn is_cut(alloc: Global, row: &(&str, &str, &str)) -> Result<bool, NoMemory> {
    let text = text_of(alloc, row)?;
    let bad = row.2.trim_start();
    let end = text.len().min(1_000_000);
    let at = Span {
        file: FILE,
        start: end.saturating_sub(bad.len()) as u32,
        end: end as u32,
    };
    let tokens = tokens_of(alloc, &text)?;
    answers(alloc, tokens.as_slice(), Some((FaultKind::Syntax, at)))
}

#[test]
fn long_files_with_a_fault(rt: HostRuntime) -> Result<(), Fail> {
    for row in CUT {
        assert!(rt; is_cut(rt.alloc(), row)?, "{row:?}");
    }
    Ok(())
}
