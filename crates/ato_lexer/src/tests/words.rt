use super::case;
use std::test::Fail;

/// Names and keywords.
const WORDS: &[(&str, &str)] = &[
    (
        "module component interface from import new signal pin assert",
        "module@0..6 component@7..16 interface@17..26 from@27..31 import@32..38 new@39..42 signal@43..49 pin@50..53 assert@54..60 newline@60..60 end@60..60",
    ),
    (
        "within is to pass for in True False",
        "within@0..6 is@7..9 to@10..12 pass@13..17 for@18..21 in@22..24 True@25..29 False@30..35 newline@35..35 end@35..35",
    ),
    (
        "pins Pin pin_ true into",
        "name3@0..4 name4@5..8 name5@9..13 name6@14..18 name7@19..23 newline@23..23 end@23..23",
    ),
    ("_ _1", "name3@0..1 name4@2..4 newline@4..4 end@4..4"),
    (
        "Größe=電圧",
        "name3@0..7 =@7..8 name4@8..14 newline@14..14 end@14..14",
    ),
    ("pin\u{e9}", "name3@0..5 newline@5..5 end@5..5"),
    ("\u{1d400}1", "name3@0..5 newline@5..5 end@5..5"),
    (
        "k\u{2126} \u{b5}m",
        "name3@0..4 name4@5..8 newline@8..8 end@8..8",
    ),
    ("a\u{663}", "name3@0..3 newline@3..3 end@3..3"),
    ("m\u{b2}", "BadChar@1..3"),
    ("\u{301}a", "BadChar@0..2"),
    ("\u{663}", "BadChar@0..2"),
];

/// Marks.
const MARKS: &[(&str, &str)] = &[
    (
        "+/- -> ** <= >= < > = ~ : ;",
        "+/-@0..3 ->@4..6 **@7..9 <=@10..12 >=@13..15 <@16..17 >@18..19 =@20..21 ~@22..23 :@24..25 ;@26..27 newline@27..27 end@27..27",
    ),
    (
        ", . ( ) [ ] + - * / | %",
        ",@0..1 .@2..3 (@4..5 )@6..7 [@8..9 ]@10..11 +@12..13 -@14..15 *@16..17 /@18..19 |@20..21 %@22..23 newline@23..23 end@23..23",
    ),
    ("x**2", "name3@0..1 **@1..3 2@3..4 newline@4..4 end@4..4"),
    (
        "10kohm +/- 5%",
        "10@0..2 name3@2..6 +/-@7..10 5@11..12 %@12..13 newline@13..13 end@13..13",
    ),
    ("1\u{b1}2", "1@0..1 +/-@1..3 2@3..4 newline@4..4 end@4..4"),
    ("+/", "+@0..1 /@1..2 newline@2..2 end@2..2"),
    ("+/ -", "+@0..1 /@1..2 -@3..4 newline@4..4 end@4..4"),
    ("+/->=*", "+/-@0..3 >=@3..5 *@5..6 newline@6..6 end@6..6"),
    ("<<", "<@0..1 <@1..2 newline@2..2 end@2..2"),
    ("<=>", "<=@0..2 >@2..3 newline@3..3 end@3..3"),
    ("==", "=@0..1 =@1..2 newline@2..2 end@2..2"),
    ("***", "**@0..2 *@2..3 newline@3..3 end@3..3"),
    ("-->", "-@0..1 ->@1..3 newline@3..3 end@3..3"),
    (
        "a->b",
        "name3@0..1 ->@1..3 name4@3..4 newline@4..4 end@4..4",
    ),
];

#[test]
fn names_keywords_and_marks(rt: HostRuntime) -> Result<(), Fail> {
    for (text, want) in WORDS {
        assert!(rt; case(rt.alloc(), text.as_bytes(), want)?, "{text}");
    }
    for (text, want) in MARKS {
        assert!(rt; case(rt.alloc(), text.as_bytes(), want)?, "{text}");
    }
    Ok(())
}
