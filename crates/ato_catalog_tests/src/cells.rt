use crate::places::{fault_of, size_of};
use ato_base::{FaultKind, NoMemory};
use std::alloc::Global;

/// Cells of a price, and whether they are good.
const PRICES: &[(&str, bool)] = &[
    ("", true),
    ("0", true),
    ("12", true),
    ("00000000000000000000000012", true),
    ("18446744073709551615", true),
    ("000018446744073709551615", true),
    ("18446744073709551616", false),
    ("99999999999999999999", false),
    ("+1", false),
    ("-1", false),
    ("1.0", false),
    ("1e3", false),
    (" 1", false),
    ("1 ", false),
    ("free", false),
    ("\u{663}", false),
];

/// Cells of an attribute, and whether they are good.
const VALUES: &[(&str, bool)] = &[
    ("", true),
    ("0", true),
    ("-3", true),
    ("10kohm +/- 1%", true),
    ("2.0V \u{B1} 5%", true),
    ("1uF to 2uF", true),
    ("1 to 2uF", true),
    (" 4.7 k\u{3A9} ", true),
    ("10%", true),
    ("1 kg", true),
    // no literal
    (" ", false),
    ("V", false),
    ("1V V", false),
    ("1V +/-", false),
    ("to 3V", false),
    ("+3V", false),
    ("1,5V", false),
    ("1V # at most", false),
    // no unit
    ("10kohn", false),
    ("1 to", false),
    ("1kohms", false),
    // two dimensions
    ("1V to 2A", false),
    ("1V +/- 1A", false),
    // too wide
    ("1e99", false),
    ("170141183460469231731687303715884105728", false),
    ("1e38 to 1e38kV", false),
    // low above high
    ("3V to 2V", false),
];

/// A catalogue of three rows whose cell in the last column, under this heading, is this one in one row.
fn text_of(alloc: Global, heading: &str, at: u32, cell: &str) -> Result<String, NoMemory> {
    let mut text = format!(in alloc; "part,kind,{heading}\n")?;
    for row in 1..4u32 {
        let line = if row == at {
            format!(in alloc; "P{row},k,\"{cell}\"\n")?
        } else {
            format!(in alloc; "P{row},k,\n")?
        };
        text.push_str(line.as_str())?;
    }
    Ok(text)
}

/// Whether a cell under this heading is good, or not, in the first, the second and the last row.
fn case(alloc: Global, heading: &str, cell: &str, good: bool) -> Result<bool, NoMemory> {
    for at in 1..4u32 {
        let text = text_of(alloc, heading, at, cell)?;
        let right = if good {
            size_of(alloc, text.as_bytes()).is_some()
        } else {
            fault_of(alloc, text.as_bytes()) == Some((FaultKind::BadCell, at, 3))
        };
        if !right {
            return Ok(false);
        }
    }
    Ok(true)
}

#[test]
fn prices(rt: HostRuntime) -> Result<(), NoMemory> {
    for (cell, good) in PRICES {
        assert!(rt; case(rt.alloc(), "price", cell, *good)?, "{cell}");
    }
    Ok(())
}

#[test]
fn values(rt: HostRuntime) -> Result<(), NoMemory> {
    for (cell, good) in VALUES {
        assert!(rt; case(rt.alloc(), "x", cell, *good)?, "{cell}");
    }
    Ok(())
}
