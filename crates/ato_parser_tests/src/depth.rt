//! Parentheses inside each other: 64 at most.
use crate::runs::{FILE, answers, tokens_of};
use ato_base::{FaultKind, NoMemory, Span};
use std::alloc::Global;
use std::test::Fail;

/// What is written around something again and again: what stands before the first open parenthesis, from it on
/// to the next, the innermost, what stands behind, and how many parentheses are open inside of it.
type Shape = (
    &'static str,
    &'static str,
    &'static str,
    &'static str,
    usize,
);

/// Shapes of all forms of parentheses, and of what may stand beside them.
const SHAPES: &[Shape] = &[
    ("", "(", "a", ")", 1),
    ("abs", "(", "a", ")", 1),
    ("min", "(", "a", ")", 1),
    ("max", "(", "5 to 6", ")", 1),
    ("min", "(", "a", ", b)", 1),
    ("max", "(a, ", "b", ")", 1),
    ("max", "(a, ", "b", ", c, d)", 1),
    ("", "(a + ", "b", ")", 1),
    ("", "(-5V - ", "b", ")", 1),
    ("", "(", "a", " * b)", 1),
    ("", "(", "a", ") ** 2", 1),
    ("abs ", "(", "-5", ") ** 16", 1),
    ("a ** 2 * ", "(", "b", ")", 1),
    ("-1 + ", "(", "min", ")", 1),
    ("a.abs / ", "(\n", "b.1", "\n)", 1),
    ("", "((", "a", "))", 2),
    ("abs", "(min(a, ", "b", "))", 2),
    ("min", "(abs(", "b", ") + c, d)", 2),
    ("max", "((abs(min(", "a", ") + 1)), b * 2)", 4),
    ("", "(a - (", "b", ") / (c))", 2),
];

/// What stands around an expression, where one may stand.
const PLACES: &[(&str, &str)] = &[
    ("module M: x = ", "\n"),
    ("module M: x.y.1 = ", "; pass\n"),
    ("module M: x: V = ", ";\n"),
    ("module M: assert ", " < a\n"),
    ("module M: assert ", " within 1 to 2\n"),
    ("module M: assert a >= ", "\n"),
    ("module M: assert a is ", "\n"),
    ("module M: assert (a) * b > ", "; pass\n"),
    ("module M: x = 5V to 6V - ", " / a\n"),
    ("module M: x = a ** 2 * ", " + 1\n"),
    ("module M: x = (a) + (b) - ", " - (c)\n"),
    (
        "pass\nmodule M:\n    pass\n    x = abs(a) + ",
        "\n    pass\n",
    ),
];

/// A part again and again.
fn push_often(out: &mut String, times: usize, part: &str) -> Result<(), NoMemory> {
    for _ in 0..times {
        out.push_str(part)?;
    }
    Ok(())
}

/// A shape around itself.
fn nested(
    alloc: Global,
    place: &(&str, &str),
    shape: &Shape,
    times: usize,
) -> Result<String, NoMemory> {
    let (before, behind) = *place;
    let (head, open, inner, close, _) = *shape;
    let opening = format!(in alloc; "{head}{open}")?;
    let mut text = String::from_str(alloc, before)?;
    push_often(&mut text, times, &opening)?;
    text.push_str(inner)?;
    push_often(&mut text, times, close)?;
    text.push_str(behind)?;
    Ok(text)
}

/// The place of a parenthesis.
fn parenthesis(start: usize) -> Span {
    let start = start.min(1_000_000) as u32;
    Span {
        file: FILE,
        start,
        end: start + 1,
    }
}

/// Whether 64 are good and the next one is too deep.
fn case(alloc: Global, place: &(&str, &str), shape: &Shape) -> Result<bool, NoMemory> {
    let (head, open, _, _, levels) = *shape;
    let times = 64usize.checked_div(levels).unwrap_or(0);
    let good = nested(alloc, place, shape, times)?;
    if !answers(alloc, tokens_of(alloc, &good)?.as_slice(), None)? {
        return Ok(false);
    }
    let deep = nested(alloc, place, shape, times.saturating_add(1))?;
    let opened = times.saturating_mul(head.len().saturating_add(open.len()));
    let before = place.0.len().saturating_add(opened);
    let at = parenthesis(before.saturating_add(head.len()));
    answers(
        alloc,
        tokens_of(alloc, &deep)?.as_slice(),
        Some((FaultKind::TooDeep, at)),
    )
}

#[test]
fn one_parenthesis_too_many(rt: HostRuntime) -> Result<(), Fail> {
    let alloc = rt.alloc();
    for place in PLACES {
        for shape in SHAPES {
            assert!(rt; case(alloc, place, shape)?, "{place:?} {shape:?}");
        }
    }
    Ok(())
}

/// How many open parentheses stand inside each other, what stands behind them, the kind of the fault, and how
/// many bytes behind them it stands.
const LAST: &[(usize, &str, FaultKind, usize)] = &[
    (64, "(", FaultKind::TooDeep, 0),
    (64, "((((", FaultKind::TooDeep, 0),
    (64, "()", FaultKind::TooDeep, 0),
    (64, "(for", FaultKind::TooDeep, 0),
    (64, "abs(a)", FaultKind::TooDeep, 3),
    (64, "a + min(b", FaultKind::TooDeep, 7),
    (64, "a)) + ((((b", FaultKind::TooDeep, 8),
    (64, "a), b", FaultKind::Syntax, 2),
    (64, "a(b)", FaultKind::Syntax, 1),
    (64, "5(b)", FaultKind::Syntax, 1),
    (64, "5V(b)", FaultKind::Syntax, 2),
    (64, "-(b)", FaultKind::Syntax, 1),
    (64, "a - -(b)", FaultKind::Syntax, 5),
    (64, "a ** (2)", FaultKind::Syntax, 5),
    (64, "a.abs(b)", FaultKind::Syntax, 5),
    (64, "abs.1(b)", FaultKind::Syntax, 5),
    (64, "5 abs(b)", FaultKind::Syntax, 5),
    (64, "5 to (6)", FaultKind::Syntax, 5),
    (64, "5 +/- (6)", FaultKind::Syntax, 6),
    (64, "sin(b)", FaultKind::Syntax, 3),
    (64, "a)(b", FaultKind::Syntax, 2),
    (63, "a(b)", FaultKind::Syntax, 1),
    (63, "(a(b)", FaultKind::Syntax, 2),
    (63, "()", FaultKind::Syntax, 1),
    (63, "abs((a))", FaultKind::TooDeep, 4),
    (63, "min(a, b, (c))", FaultKind::TooDeep, 10),
    (63, "abs() + ((a))", FaultKind::Syntax, 4),
    (62, "max((a), ((b)))", FaultKind::TooDeep, 10),
];

/// Whether a fault stands behind open parentheses.
fn is_last(alloc: Global, row: &(usize, &str, FaultKind, usize)) -> Result<bool, NoMemory> {
    let (times, behind, kind, place) = *row;
    let start = "module M: assert a within 1; x = ";
    let mut text = String::from_str(alloc, start)?;
    push_often(&mut text, times, "(")?;
    let at = parenthesis(text.len().saturating_add(place));
    text.push_str(behind)?;
    let tokens = tokens_of(alloc, &text)?;
    answers(alloc, tokens.as_slice(), Some((kind, at)))
}

#[test]
fn the_last_parenthesis_has_no_place(rt: HostRuntime) -> Result<(), Fail> {
    for row in LAST {
        assert!(rt; is_last(rt.alloc(), row)?, "{row:?}");
    }
    Ok(())
}

/// What stands before parts, a part, how often it stands there, and what stands behind. No more than 64
/// parentheses stand inside each other.
const BESIDE: &[(&str, &str, usize, &str)] = &[
    ("x = ", "(a) + ", 200, "b\n"),
    ("x = ", "abs(a) * (min(b, (c))) - ", 100, "b\n"),
    ("x: V = ", "max((a), (b), ((c))) / ", 100, "b\n"),
    ("", "x = (b) - a; ", 100, "pass\n"),
    ("", "assert (a) < (b); ", 100, "pass\n"),
];

/// Whether parts beside each other are good.
fn is_beside(alloc: Global, row: &(&str, &str, usize, &str)) -> Result<bool, NoMemory> {
    let (before, part, times, behind) = *row;
    let mut text = format!(in alloc; "module M: {before}")?;
    push_often(&mut text, times, part)?;
    text.push_str(behind)?;
    let tokens = tokens_of(alloc, &text)?;
    answers(alloc, tokens.as_slice(), None)
}

/// Whether 64 are good twice in one statement, with something between.
fn is_twice(alloc: Global, place: &(&str, &str)) -> Result<bool, NoMemory> {
    let (between, behind) = *place;
    let mut text = String::from_str(alloc, "module M: assert ")?;
    push_often(&mut text, 64, "(")?;
    text.push_str("a")?;
    push_often(&mut text, 64, ")")?;
    text.push_str(between)?;
    push_often(&mut text, 64, "abs(")?;
    text.push_str("b")?;
    push_often(&mut text, 64, ")")?;
    text.push_str(behind)?;
    let tokens = tokens_of(alloc, &text)?;
    answers(alloc, tokens.as_slice(), None)
}

/// What stands between two expressions with 64 each, and what behind.
const BETWEEN: &[(&str, &str)] = &[
    (" < ", "\n"),
    (" + ", " is c\n"),
    (" / ", " ** 2 >= c\n"),
    (" within 5; x = ", "\n"),
];

#[test]
fn parentheses_beside_each_other(rt: HostRuntime) -> Result<(), Fail> {
    let alloc = rt.alloc();
    for row in BESIDE {
        assert!(rt; is_beside(alloc, row)?, "{row:?}");
    }
    for row in BETWEEN {
        assert!(rt; is_twice(alloc, row)?, "{row:?}");
    }
    Ok(())
}
