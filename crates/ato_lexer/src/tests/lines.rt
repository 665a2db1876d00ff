use super::case;
use std::test::Fail;

/// Files without a token, and files of one line.
const FEW: &[(&str, &str)] = &[
    ("", "end@0..0"),
    (" \t ", "end@3..3"),
    ("\n", "end@1..1"),
    ("\r\n", "end@2..2"),
    ("\u{feff}", "end@3..3"),
    ("  # x", "end@5..5"),
    ("# a\n  # b\n", "end@10..10"),
    ("#\0\r$\u{feff}\"\n", "end@9..9"),
    ("a", "name3@0..1 newline@1..1 end@1..1"),
    ("a\n", "name3@0..1 newline@1..1 end@2..2"),
    ("a  # b\n\n", "name3@0..1 newline@1..1 end@8..8"),
    ("\u{feff}a", "name3@3..4 newline@4..4 end@4..4"),
    (
        "a;\tb;\n",
        "name3@0..1 ;@1..2 name4@3..4 ;@4..5 newline@5..5 end@6..6",
    ),
];

/// Lines of one depth, and brackets over line ends.
const LINES: &[(&str, &str)] = &[
    (
        "\n  \na\n\n   \nb\n\n",
        "name3@4..5 newline@5..5 name4@11..12 newline@12..12 end@14..14",
    ),
    (
        "a\r\nb",
        "name3@0..1 newline@1..1 name4@3..4 newline@4..4 end@4..4",
    ),
    (
        "a#\r#\r\nb",
        "name3@0..1 newline@1..1 name4@6..7 newline@7..7 end@7..7",
    ),
    (
        "a(\n        b)\nc",
        "name3@0..1 (@1..2 name4@11..12 )@12..13 newline@13..13 name5@14..15 newline@15..15 end@15..15",
    ),
    (
        "([\n]\n)\na",
        "(@0..1 [@1..2 ]@3..4 )@5..6 newline@6..6 name3@7..8 newline@8..8 end@8..8",
    ),
    ("(# x )\r\n)", "(@0..1 )@8..9 newline@9..9 end@9..9"),
    (
        "(]\na",
        "(@0..1 ]@1..2 newline@2..2 name3@3..4 newline@4..4 end@4..4",
    ),
    (
        ")\n(\n)",
        ")@0..1 newline@1..1 (@2..3 )@4..5 newline@5..5 end@5..5",
    ),
    ("](\n)", "]@0..1 (@1..2 )@3..4 newline@4..4 end@4..4"),
    ("[\na\n", "[@0..1 name3@2..3 newline@3..3 end@4..4"),
    (
        "a:\n  (b\n c",
        "name3@0..1 :@1..2 newline@2..2 indent@5..5 (@5..6 name4@6..7 name5@9..10 newline@10..10 dedent@10..10 end@10..10",
    ),
];

/// Lines of more than one depth.
const LEVELS: &[(&str, &str)] = &[
    (
        "module A:\n    pin 1\n\n  # c\n    x = (1,\n 2)\n\tpass\ny",
        "module@0..6 name3@7..8 :@8..9 newline@9..9 indent@14..14 pin@14..17 1@18..19 newline@19..19 name4@31..32 =@33..34 (@35..36 1@36..37 ,@37..38 2@40..41 )@41..42 newline@42..42 indent@44..44 pass@44..48 newline@48..48 dedent@49..49 dedent@49..49 name5@49..50 newline@50..50 end@50..50",
    ),
    (
        "a\n b\n  c\n b\n  d\na",
        "name3@0..1 newline@1..1 indent@3..3 name4@3..4 newline@4..4 indent@7..7 name5@7..8 newline@8..8 dedent@10..10 name4@10..11 newline@11..11 indent@14..14 name6@14..15 newline@15..15 dedent@16..16 dedent@16..16 name3@16..17 newline@17..17 end@17..17",
    ),
    (
        "a:\n  b # c\n\n",
        "name3@0..1 :@1..2 newline@2..2 indent@5..5 name4@5..6 newline@6..6 dedent@12..12 end@12..12",
    ),
    (
        "a:\r\n  b\r\n",
        "name3@0..1 :@1..2 newline@2..2 indent@6..6 name4@6..7 newline@7..7 dedent@9..9 end@9..9",
    ),
    (
        "  a\nb",
        "indent@2..2 name3@2..3 newline@3..3 dedent@4..4 name4@4..5 newline@5..5 end@5..5",
    ),
    (
        "a\n  b\n\t# c\n  d",
        "name3@0..1 newline@1..1 indent@4..4 name4@4..5 newline@5..5 name5@13..14 newline@14..14 dedent@14..14 end@14..14",
    ),
    (
        " \ta\n        b",
        "indent@2..2 name3@2..3 newline@3..3 name4@12..13 newline@13..13 dedent@13..13 end@13..13",
    ),
    (
        "       \ta\n        b\n        \tc",
        "indent@8..8 name3@8..9 newline@9..9 name4@18..19 newline@19..19 indent@29..29 name5@29..30 newline@30..30 dedent@30..30 dedent@30..30 end@30..30",
    ),
    (
        "\u{feff}\ta\n        b",
        "indent@4..4 name3@4..5 newline@5..5 name4@14..15 newline@15..15 dedent@15..15 end@15..15",
    ),
    (
        "\u{feff}a\nb",
        "name3@3..4 newline@4..4 name4@5..6 newline@6..6 end@6..6",
    ),
    ("a:\n    b\n  c\n", "BadIndent@11..12"),
    ("  a\n b", "BadIndent@5..6"),
    ("a\n b\n   c\n  d\n", "BadIndent@12..13"),
    ("a\n\tb\n    c", "BadIndent@9..10"),
    ("a\n  b\n 'cd'", "BadIndent@7..11"),
    ("a:\n    b\n  1e99\n", "BadIndent@11..15"),
    ("a\n  b\n c $", "BadIndent@7..8"),
];

#[test]
fn lines_and_levels(rt: HostRuntime) -> Result<(), Fail> {
    for (text, want) in FEW {
        assert!(rt; case(rt.alloc(), text.as_bytes(), want)?, "{text:?}");
    }
    for (text, want) in LINES {
        assert!(rt; case(rt.alloc(), text.as_bytes(), want)?, "{text:?}");
    }
    for (text, want) in LEVELS {
        assert!(rt; case(rt.alloc(), text.as_bytes(), want)?, "{text:?}");
    }
    Ok(())
}
