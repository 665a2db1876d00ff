//! Texts with a fault, and where it stands in their bytes.
use crate::runs::{FILE, answers, tokens_of};
use ato_base::{FaultKind, NoMemory, Span};
use std::alloc::Global;
use std::test::Fail;

/// What stands before the token that has no place, the token as it is written, and what stands behind it.
/// A token without bytes is a line end, a step in or out, or END.
const FILES: &[(&str, &str, &str)] = &[
    ("", "a", " = 5\n"),
    ("", "signal", " a\n"),
    ("", "(", "\n"),
    ("# c\n\n", "new", " A\n"),
    ("  ", "", "pass\n"),
    ("pass ", "pass", "\n"),
    ("pass\n  ", "", "pass\n"),
    ("pass\n", ")", "\n"),
    ("pass;", ";", "\n"),
    ("pass\n", ";", "\n"),
    ("pass ", "module", " M: pass\n"),
    ("pass; ", "component", " C: pass\n"),
    ("'a' ", "'b'", "\n"),
    ("import", "", "\n"),
    ("import ", "'a'", "\n"),
    ("import A", ".", "B\n"),
    ("import A ", "B", "\n"),
    ("import A,", "", "\n"),
    ("import A, B ", "from", " 'b'\n"),
    ("import A from ", "B", "\n"),
    ("import A from 'b'", ",", " C\n"),
    ("from ", "A", " import B\n"),
    ("from 'a' ", "'b'", " import C\n"),
    ("from 'a'", "", "\n"),
    ("from 'a' import ", "'b'", "\n"),
    ("from 'a' import B ", "from", " 'c'\n"),
    ("module", "", "\n"),
    ("module ", "'M'", ": pass\n"),
    ("module ", "from", " N: pass\n"),
    ("module M", "", "\n    pass\n"),
    ("module M", "(", "N): pass\n"),
    ("module M", ".", "N: pass\n"),
    ("module M from ", "'a'", ": pass\n"),
    ("module M from N ", "from", " O: pass\n"),
    ("module M:\n", "", ""),
    ("module M:\n", "pass", "\n"),
    ("module M:\n", "module", " N: pass\n"),
    ("module M: ", "module", " N: pass\n"),
    ("module M: ", ";", "\n"),
    ("module M: pass\n    ", "", "pass\n"),
    ("module M:\n    pass\n        ", "", "pass\n"),
    ("module M:\n    pass\n\n  # c\n    ", "import", " A\n"),
    ("module M:\n    'doc'\n    ", "module", " N: pass\n"),
    ("module M:\n    pass\n", "x", " = 5\n"),
    ("component T:\n    pin 1\n    a ~ b ", "~", " pin 1\n"),
    ("component T:\n", "", ""),
];

/// The same of statements in a module.
const STMTS: &[(&str, &str, &str)] = &[
    ("", "for", " i in x: pass"),
    ("", "5", " = x"),
    ("", "(", "x) = 5"),
    ("", "new", " A"),
    ("", "-", "x = 5"),
    ("pass; ", ";", " pass"),
    ("'a' ", "=", " 5"),
    ("signal ", "'a'", ""),
    ("signal ", "5", ""),
    ("signal a", ".", "b"),
    ("signal a ", "=", " 5"),
    ("pin ", "5.0", ""),
    ("pin ", "-", "5"),
    ("pin a", ".", "b"),
    ("pin 5 ~ ", "6", ""),
    ("pin 5 ~ ", "'a'", ""),
    ("a", "", ""),
    ("a", "[", "1] ~ b"),
    ("a ", "b", " = 5"),
    ("a.", "1.5", " ~ b"),
    ("a.1", ".", "b ~ c"),
    ("a.1", ":", " V"),
    ("a.b", ":", " V"),
    ("a.", "'b'", " ~ c"),
    ("a ~ ", "5", ""),
    ("a ~ ", "'b'", ""),
    ("a ~ ", "new", " B"),
    ("a ~ pin 1 ", "~", " b"),
    ("a -> b", ".", "c"),
    ("a: V ", "within", " 5"),
    ("a: V", ".", "b"),
    ("a: ", "'V'", ""),
    ("a.b = ", "new", " C"),
    ("a.1 = ", "new", " C"),
    ("a: V = ", "new", " C"),
    ("a = new B", ".", "c"),
    ("a = new ", "'B'", ""),
    ("a =", "", ""),
    ("a = b ", "=", " c"),
    ("a = b ", "<", " c"),
    ("a = 'b' ", "+", " 'c'"),
    ("a = True ", "+", " 1"),
    ("a = ", "pin", " 1"),
    ("a = (", "True", ")"),
    ("a = (", "'b'", ")"),
    ("abs", "(", "a) = 5"),
    ("assert", "", ""),
    ("assert a", "", ""),
    ("assert a ", "=", " 5"),
    ("assert a < b ", "<", " c"),
    ("assert ", "True", " is a"),
    ("assert a is ", "True", ""),
    ("assert a within ", "b", ""),
    ("assert a within ", "(", "5)"),
    ("assert a within 5 ", "+", " 6"),
    ("assert a within 5 |", "", ""),
    ("assert a < 5 ", "|", " 6"),
];

/// The same of expressions that are assigned.
const EXPRS: &[(&str, &str, &str)] = &[
    ("", "+", "5"),
    ("5 + ", ";", " pass"),
    ("5 ", "5", ""),
    ("5 V ", "V", ""),
    ("5 % ", "%", ""),
    ("5 V", ".", "b"),
    ("- ", "a", ""),
    ("-", "(", "5)"),
    ("- ", "-", " 5"),
    ("5 - - ", "a", ""),
    ("5 to ", "a", ""),
    ("5 to 6 ", "to", " 7"),
    ("5 to 6 ", "+/-", " 7"),
    ("5 +/- ", "-", "6"),
    ("5 +/- 6 ", "+/-", " 7"),
    ("5 +/- 6 ", "to", " 7"),
    ("a ", "to", " 5"),
    ("a ", "+/-", " 5"),
    ("(5) ", "to", " 6"),
    ("5 to ", "(", "6)"),
    ("a ", "V", ""),
    ("a ", "%", ""),
    ("a ** ", "0", ""),
    ("a ** ", "17", ""),
    ("a ** ", "65536", ""),
    ("a ** ", "2.0", ""),
    ("a ** ", "1e1", ""),
    ("a ** ", "-", "1"),
    ("a ** ", "b", ""),
    ("a ** ", "(", "2)"),
    ("a ** 2 ", "**", " 2"),
    ("a ** 2 ", "V", ""),
    ("a ", "(", "b)"),
    ("5 ", "(", "b)"),
    ("(a) ", "(", "b)"),
    ("sin", "(", "a)"),
    ("M", "(", "a)"),
    ("a.abs", "(", "b)"),
    ("abs.b", "(", "c)"),
    ("abs.1", "(", "c)"),
    ("5 abs", "(", "c)"),
    ("(", ")", ""),
    ("abs(", ")", ""),
    ("min(", ")", ""),
    ("(a", ",", " b)"),
    ("abs(a", ",", " b)"),
    ("max(a,", ")", ""),
    ("max(a, ", ",", " b)"),
    ("min(a", ";", " b)"),
    ("(a", ";", " pass"),
    ("min(a, (b", ",", " c))"),
    ("(a)", ")", ""),
    ("a", ")", ""),
    ("a", ",", " b"),
    ("(a", "]", ""),
    ("", "[", "a]"),
    ("a * ", "*", " b"),
    ("a ** ", "*", " b"),
    ("a / ", "/", " b"),
    ("a . ", ".", " b"),
    ("a.", ";", ""),
    ("a.1 ", ".", " 2"),
    ("a ", "|", " b"),
    ("a ", "->", " b"),
    ("a ", "~", " b"),
    ("a ", "is", " b"),
    ("", "in", ""),
];

/// Whether a text has its fault at the part in the middle.
fn case(alloc: Global, around: (&str, &str), row: &(&str, &str, &str)) -> Result<bool, NoMemory> {
    let (start, end) = around;
    let (before, bad, behind) = *row;
    let text = format!(in alloc; "{start}{before}{bad}{behind}{end}")?;
    let tokens = tokens_of(alloc, &text)?;
    let from = start.len().saturating_add(before.len()).min(1_000_000);
    let to = from.saturating_add(bad.len()).min(2_000_000);
    let at = Span {
        file: FILE,
        start: from as u32,
        end: to as u32,
    };
    answers(alloc, tokens.as_slice(), Some((FaultKind::Syntax, at)))
}

#[test]
fn files_with_a_fault(rt: HostRuntime) -> Result<(), Fail> {
    for row in FILES {
        assert!(rt; case(rt.alloc(), ("", ""), row)?, "{row:?}");
    }
    Ok(())
}

#[test]
fn statements_with_a_fault(rt: HostRuntime) -> Result<(), Fail> {
    for row in STMTS {
        assert!(rt;
            case(rt.alloc(), ("module M:\n    ", "\n"), row)?,
            "{row:?}"
        );
    }
    Ok(())
}

#[test]
fn expressions_with_a_fault(rt: HostRuntime) -> Result<(), Fail> {
    for row in EXPRS {
        assert!(rt;
            case(rt.alloc(), ("module M: x = 1; y.z = ", "; pass\n"), row)?,
            "{row:?}"
        );
    }
    Ok(())
}
