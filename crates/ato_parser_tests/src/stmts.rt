//! The trees of statements, as `print_stmts` prints them.
use crate::print_files::{Shown, is_shown};
use std::test::Fail;

/// Points and connections.
const POINTS: &[(&str, &str)] = &[
    ("signal a", "point(signal(a@7..8)@0..8)@0..8"),
    ("pin a", "point(pin(a@4..5)@0..5)@0..5"),
    ("pin 7", "point(pin(7@4..5@4..5)@0..5)@0..5"),
    ("pin 70000", "point(pin(large@4..9@4..9)@0..9)@0..9"),
    ("pin 'a'", "point(pin('5..6'@4..7)@0..7)@0..7"),
    ("pin \"\"", "point(pin('5..5'@4..6)@0..6)@0..6"),
    (
        "signal a ~ pin 1",
        "point(signal(a@7..8)@0..8 ~ pin(1@15..16@15..16)@11..16)@0..16",
    ),
    (
        "pin 1 ~ signal b",
        "point(pin(1@4..5@4..5)@0..5 ~ signal(b@15..16)@8..16)@0..16",
    ),
    (
        "signal a ~ b.c",
        "point(signal(a@7..8)@0..8 ~ (b@11..12 c@13..14)@11..14)@0..14",
    ),
    ("a ~ b", "connect((a@0..1)@0..1 ~ (b@4..5)@4..5)@0..5"),
    (
        "a.1 ~ b.2",
        "connect((a@0..1 .1@2..3)@0..3 ~ (b@6..7 .2@8..9)@6..9)@0..9",
    ),
    (
        "a.b.1 ~ pin 'c'",
        "connect((a@0..1 b@2..3 .1@4..5)@0..5 ~ pin('13..14'@12..15)@8..15)@0..15",
    ),
    (
        "a ~ signal b",
        "connect((a@0..1)@0..1 ~ signal(b@11..12)@4..12)@0..12",
    ),
];

/// What is replaced, assigned, made and declared.
const VALUES: &[(&str, &str)] = &[
    ("a -> B", "replace((a@0..1)@0..1 -> B@5..6)@0..6"),
    ("a.b -> C", "replace((a@0..1 b@2..3)@0..3 -> C@7..8)@0..8"),
    ("a = 'x'", "assign((a@0..1)@0..1 = '5..6'@4..7)@0..7"),
    ("a = True", "assign((a@0..1)@0..1 = True@4..8)@0..8"),
    (
        "a.b = False",
        "assign((a@0..1 b@2..3)@0..3 = False@6..11)@0..11",
    ),
    (
        "a = 5",
        "assign((a@0..1)@0..1 = literal(<5@4..5>@4..5)@4..5)@0..5",
    ),
    (
        "a = b.c",
        "assign((a@0..1)@0..1 = (b@4..5 c@6..7)@4..7)@0..7",
    ),
    (
        "abs = abs",
        "assign((abs@0..3)@0..3 = (abs@6..9)@6..9)@0..9",
    ),
    ("a = new B", "make(a@0..1 = new B@8..9)@0..9"),
    ("a: V", "declare(a@0..1: V@3..4)@0..4"),
    (
        "a: V = 5V",
        "declare(a@0..1: V@3..4 = literal(<5@7..8 V>@7..9)@7..9)@0..9",
    ),
    ("a: V = 's'", "declare(a@0..1: V@3..4 = '8..9'@7..10)@0..10"),
    ("a: V = True", "declare(a@0..1: V@3..4 = True@7..11)@0..11"),
];

/// What is asserted.
const ASSERTS: &[(&str, &str)] = &[
    (
        "assert a < b",
        "assert((a@7..8)@7..8 < (b@11..12)@11..12)@0..12",
    ),
    (
        "assert a <= b",
        "assert((a@7..8)@7..8 <= (b@12..13)@12..13)@0..13",
    ),
    (
        "assert a > b",
        "assert((a@7..8)@7..8 > (b@11..12)@11..12)@0..12",
    ),
    (
        "assert a >= b",
        "assert((a@7..8)@7..8 >= (b@12..13)@12..13)@0..13",
    ),
    (
        "assert a is 5",
        "assert((a@7..8)@7..8 is literal(<5@12..13>@12..13)@12..13)@0..13",
    ),
    (
        "assert a + 1 < b",
        "assert(sum((a@7..8)@7..8 + literal(<1@11..12>@11..12)@11..12)@7..12 < (b@15..16)@15..16)@0..16",
    ),
    (
        "assert a within 1",
        "assert((a@7..8)@7..8 within <1@16..17>@16..17)@0..17",
    ),
    (
        "assert a within 1 to 2 | -3 +/- 4%",
        "assert((a@7..8)@7..8 within <1@16..17>@16..17 to <2@21..22>@21..22 | <-3@26..27>@25..27 +/- <4@32..33 %>@32..34)@0..34",
    ),
];

/// Other statements, and more than one in a line.
const LINES: &[(&str, &str)] = &[
    ("pass", "pass()@0..4"),
    ("'d'", "docs('1..2'@0..3)@0..3"),
    ("\"\"\"d\"\"\"", "docs('3..4'@0..7)@0..7"),
    ("pass;", "pass()@0..4;"),
    ("pass ; # c", "pass()@0..4;"),
    ("pass; pass", "pass()@0..4; pass()@6..10"),
    ("pass;'d';", "pass()@0..4; docs('6..7'@5..8)@5..8;"),
    (
        "a ~ b; c ~ d;",
        "connect((a@0..1)@0..1 ~ (b@4..5)@4..5)@0..5; connect((c@7..8)@7..8 ~ (d@11..12)@11..12)@7..12;",
    ),
    (
        "a = b; c: V; pin 1",
        "assign((a@0..1)@0..1 = (b@4..5)@4..5)@0..5; declare(c@7..8: V@10..11)@7..11; point(pin(1@17..18@17..18)@13..18)@13..18",
    ),
];

#[test]
fn trees_of_statements(rt: HostRuntime) -> Result<(), Fail> {
    let alloc = rt.alloc();
    for rows in [POINTS, VALUES, ASSERTS, LINES].iter() {
        for row in *rows {
            assert!(rt; is_shown(alloc, "module M: ", row, Shown::Line)?, "{row:?}");
        }
    }
    Ok(())
}
