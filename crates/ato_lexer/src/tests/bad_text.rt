use super::case;
use std::test::Fail;

/// Bytes that are no UTF-8.
const NO_TEXT: &[(&[u8], &str)] = &[
    // a lone continuation byte
    (b"\x80", "BadText@0..1"),
    (b"a\xbf", "BadText@1..2"),
    // overlong
    (b"a\xc0\xaf", "BadText@1..2"),
    (b"\xc1\xbf", "BadText@0..1"),
    (b"a\xe0\x80\x80", "BadText@1..2"),
    (b"\xf0\x80\x80\x80", "BadText@0..1"),
    // a surrogate
    (b"ab\xed\xa0\x80", "BadText@2..3"),
    (b"\xed\xbf\xbf", "BadText@0..1"),
    // above U+10FFFF
    (b"\xf4\x90\x80\x80", "BadText@0..1"),
    (b"\xc3\xa9\xf5", "BadText@2..3"),
    (b"\xff\xfea\x00", "BadText@0..1"),
    // cut at the end, or by another character
    (b"\xc3", "BadText@0..1"),
    (b"a\xe2\x84", "BadText@1..2"),
    (b"a\xf0\x9f\x98", "BadText@1..2"),
    (b"\xef\xbb", "BadText@0..1"),
    (b"\xe2\x84a", "BadText@0..1"),
    // in a string, in a comment, and before any other fault
    (b"\"\xff\"", "BadText@1..2"),
    (b"# \xff\n", "BadText@2..3"),
    (b"$ 1e40 \xff", "BadText@7..8"),
    (b"\"a\n \xff", "BadText@4..5"),
    (b"a\n  b\n c\xff", "BadText@8..9"),
];

/// Characters that begin nothing.
const BAD_CHARS: &[(&str, &str)] = &[
    ("\0", "BadChar@0..1"),
    ("a\0b", "BadChar@1..2"),
    ("\u{7}", "BadChar@0..1"),
    ("\u{b}", "BadChar@0..1"),
    ("\u{c}", "BadChar@0..1"),
    ("\u{1b}", "BadChar@0..1"),
    ("\u{7f}", "BadChar@0..1"),
    ("\u{85}", "BadChar@0..2"),
    ("a\u{a0}b", "BadChar@1..3"),
    ("\u{2028}", "BadChar@0..3"),
    ("\r", "BadChar@0..1"),
    ("a\rb", "BadChar@1..2"),
    ("a\r\r\n", "BadChar@1..2"),
    ("\r\n\r", "BadChar@2..3"),
    ("(\r)", "BadChar@1..2"),
    ("\u{feff}\u{feff}", "BadChar@3..6"),
    ("a\u{feff}", "BadChar@1..4"),
    (" \u{feff}a", "BadChar@1..4"),
    ("a\n\u{feff}", "BadChar@2..5"),
    ("a $ b", "BadChar@2..3"),
    ("a!", "BadChar@1..2"),
    ("a `b`", "BadChar@2..3"),
    ("a \\\nb", "BadChar@2..3"),
    ("{", "BadChar@0..1"),
    ("a = \u{1f600}", "BadChar@4..8"),
    ("\u{2212}5", "BadChar@0..3"),
    ("$ 1e40 \"", "BadChar@0..1"),
    ("a\n  b\n $", "BadChar@7..8"),
];

#[test]
fn bytes_and_characters_of_no_token(rt: HostRuntime) -> Result<(), Fail> {
    for (text, want) in NO_TEXT {
        assert!(rt; case(rt.alloc(), text, want)?, "{text:?}");
    }
    for (text, want) in BAD_CHARS {
        assert!(rt; case(rt.alloc(), text.as_bytes(), want)?, "{text:?}");
    }
    Ok(())
}
