use super::case;
use std::test::Fail;

/// Strings that have an end.
const CLOSED: &[(&str, &str)] = &[
    (
        "\"\" ''",
        "str(1..1)@0..2 str(4..4)@3..5 newline@5..5 end@5..5",
    ),
    (
        "'a\"b' \"it's\"",
        "str(1..4)@0..5 str(7..11)@6..12 newline@12..12 end@12..12",
    ),
    ("'a\\'b", "str(1..3)@0..4 name3@4..5 newline@5..5 end@5..5"),
    ("\"a#b\" # c \"d", "str(1..4)@0..5 newline@5..5 end@12..12"),
    ("\"a\r\0b\"", "str(1..5)@0..6 newline@6..6 end@6..6"),
    ("\"\u{feff}é\"", "str(1..6)@0..7 newline@7..7 end@7..7"),
    ("\"\"\"\"a\"\"\"", "str(3..5)@0..8 newline@8..8 end@8..8"),
    ("''''''", "str(3..3)@0..6 newline@6..6 end@6..6"),
    ("'''a''b'''", "str(3..7)@0..10 newline@10..10 end@10..10"),
    ("\"\"\"'''\"\"\"", "str(3..6)@0..9 newline@9..9 end@9..9"),
    (
        "'''a\r\n  b''' c\nd",
        "str(3..9)@0..12 name3@13..14 newline@14..14 name4@15..16 newline@16..16 end@16..16",
    ),
    (
        "a\n  '''x\ny'''\n  b",
        "name3@0..1 newline@1..1 indent@4..4 str(7..10)@4..13 newline@13..13 name4@16..17 newline@17..17 dedent@17..17 end@17..17",
    ),
    (
        "('''\n'''\n)",
        "(@0..1 str(4..5)@1..8 )@9..10 newline@10..10 end@10..10",
    ),
];

/// Strings that have none.
const OPEN: &[(&str, &str)] = &[
    ("\"", "OpenString@0..1"),
    ("'", "OpenString@0..1"),
    ("\"abc", "OpenString@0..1"),
    ("'abc", "OpenString@0..1"),
    ("x = \"ab\n\"", "OpenString@4..5"),
    ("x = 'ab\n'", "OpenString@4..5"),
    ("\"a'", "OpenString@0..1"),
    ("'a\"", "OpenString@0..1"),
    ("\"a\r\n\"", "OpenString@0..1"),
    ("\"a\\\nb\"", "OpenString@0..1"),
    ("\"a\\\"b\"", "OpenString@5..6"),
    ("(\"a\n\")", "OpenString@1..2"),
    ("\"\"\"", "OpenString@0..1"),
    ("'''''", "OpenString@0..1"),
    ("\"\"\" \"", "OpenString@0..1"),
    ("x '''a''\n", "OpenString@2..3"),
    ("x = \"\"\"a\n\nb\"\"", "OpenString@4..5"),
    ("'''a\"\"\"", "OpenString@0..1"),
    ("\"\"\"a'''", "OpenString@0..1"),
    ("\"\"\"a\"\"\"\"", "OpenString@7..8"),
    ("\"1e40 $", "OpenString@0..1"),
    ("a:\n    b\n  \"c\n", "OpenString@11..12"),
];

#[test]
fn strings_with_and_without_an_end(rt: HostRuntime) -> Result<(), Fail> {
    for (text, want) in CLOSED {
        assert!(rt; case(rt.alloc(), text.as_bytes(), want)?, "{text}");
    }
    for (text, want) in OPEN {
        assert!(rt; case(rt.alloc(), text.as_bytes(), want)?, "{text}");
    }
    Ok(())
}
