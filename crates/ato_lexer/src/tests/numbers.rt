use super::case;
use ato_base::NoMemory;
use std::alloc::Global;
use std::test::Fail;

/// Where numbers end, and which of them are whole.
const NUMBERS: &[(&str, &str)] = &[
    ("1e3ohm", "decimal@0..3 name3@3..6 newline@6..6 end@6..6"),
    ("1em", "1@0..1 name3@1..3 newline@3..3 end@3..3"),
    (
        "a.1.b",
        "name3@0..1 .@1..2 1@2..3 .@3..4 name4@4..5 newline@5..5 end@5..5",
    ),
    (
        "a.1.5",
        "name3@0..1 .@1..2 decimal@2..5 newline@5..5 end@5..5",
    ),
    ("1e3", "decimal@0..3 newline@3..3 end@3..3"),
    ("3.3V", "decimal@0..3 name3@3..4 newline@4..4 end@4..4"),
    ("1e", "1@0..1 name3@1..2 newline@2..2 end@2..2"),
    ("1.", "1@0..1 .@1..2 newline@2..2 end@2..2"),
    (".5", ".@0..1 5@1..2 newline@2..2 end@2..2"),
    ("1.2.3", "decimal@0..3 .@3..4 3@4..5 newline@5..5 end@5..5"),
    ("1..2", "1@0..1 .@1..2 .@2..3 2@3..4 newline@4..4 end@4..4"),
    (
        "1.5e+",
        "decimal@0..3 name3@3..4 +@4..5 newline@5..5 end@5..5",
    ),
    ("1.e5", "1@0..1 .@1..2 name3@2..4 newline@4..4 end@4..4"),
    (
        "1E+2E-3",
        "decimal@0..4 name3@4..5 -@5..6 3@6..7 newline@7..7 end@7..7",
    ),
    (
        "1e+-2",
        "1@0..1 name3@1..2 +@2..3 -@3..4 2@4..5 newline@5..5 end@5..5",
    ),
    ("2-1", "2@0..1 -@1..2 1@2..3 newline@3..3 end@3..3"),
    (
        "007 65535 65536 0",
        "7@0..3 65535@4..9 large@10..15 0@16..17 newline@17..17 end@17..17",
    ),
    (
        "1_000 0x1F",
        "1@0..1 name3@1..5 0@6..7 name4@7..10 newline@10..10 end@10..10",
    ),
    ("1\u{663}", "BadChar@1..3"),
];

/// Which numbers are in range.
const RANGE: &[(&str, &str)] = &[
    (
        "170141183460469231731687303715884105727",
        "large@0..39 newline@39..39 end@39..39",
    ),
    (
        "170141183460469231731687303715884105728",
        "WideNumber@0..39",
    ),
    ("17e+37", "decimal@0..6 newline@6..6 end@6..6"),
    ("18e37", "WideNumber@0..5"),
    ("1e38", "decimal@0..4 newline@4..4 end@4..4"),
    ("1e39", "WideNumber@0..4"),
    ("10E-39", "decimal@0..6 newline@6..6 end@6..6"),
    ("1e-39", "WideNumber@0..5"),
    (
        "0.0e999999999999999999",
        "decimal@0..22 newline@22..22 end@22..22",
    ),
    ("1e999999999999999999", "WideNumber@0..20"),
    // 2^126/125 and 1/5^39 have fractions, but not as texts: too many digits, and a place too far
    (
        "680564733841876926926749214863536422.912",
        "WideNumber@0..40",
    ),
    ("549755813888e-39", "WideNumber@0..16"),
    ("module T:\n    a = 1e40\n", "WideNumber@18..22"),
    ("pin 1e39", "WideNumber@4..8"),
    ("1e40m", "WideNumber@0..4"),
    ("1e40 $", "WideNumber@0..4"),
    ("1e40 \"", "WideNumber@0..4"),
    ("$ 1e40", "BadChar@0..1"),
];

/// Whether so many digits are printed so.
fn digits_case(alloc: Global, digit: &str, count: u32, want: &str) -> Result<bool, NoMemory> {
    let mut text = String::new(alloc);
    for _ in 0..count {
        text.push_str(digit)?;
    }
    case(alloc, text.as_str().as_bytes(), want)
}

#[test]
fn numbers_in_range_and_beyond(rt: HostRuntime) -> Result<(), Fail> {
    for (text, want) in NUMBERS {
        assert!(rt; case(rt.alloc(), text.as_bytes(), want)?, "{text}");
    }
    for (text, want) in RANGE {
        assert!(rt; case(rt.alloc(), text.as_bytes(), want)?, "{text}");
    }
    let zeros = "0@0..400 newline@400..400 end@400..400";
    assert!(rt; digits_case(rt.alloc(), "0", 400, zeros)?);
    assert!(rt; digits_case(rt.alloc(), "1", 400, "WideNumber@0..400")?);
    Ok(())
}
