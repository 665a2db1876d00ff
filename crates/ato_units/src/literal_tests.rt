use crate::tests::ends_of;
use crate::{QuantityFault, read_quantity};
use std::alloc::{AllocError, Global};
use std::test::Fail;

/// The exponent of the ampere and the four parts of the ends, or the fault.
type Reading = Result<(i8, i128, i128, i128, i128), QuantityFault>;

/// What is read of a literal's text.
fn reading(text: &str) -> Reading {
    match read_quantity(text) {
        Ok(quantity) => Ok(ends_of(quantity)),
        Err(fault) => Err(fault),
    }
}

/// Whether a text is read so.
fn is_read(text: &str, want: Reading) -> bool {
    reading(text) == want
}

/// Texts, and what is read of them.
const LITERALS: &[(&str, Reading)] = &[
    ("10kohm +/- 5%", Ok((-2, 9500, 1, 10500, 1))),
    ("1 to 2V", Ok((-1, 1, 1, 2, 1))),
    ("3.3V +/- 2%", Ok((-1, 1617, 500, 1683, 500))),
    ("-1V +/- 10%", Ok((-1, -11, 10, -9, 10))),
    ("-1V\u{B1}10%", Ok((-1, -11, 10, -9, 10))),
    ("1mm", Ok((0, 1, 1000, 1, 1000))),
    ("1e3ohm", Ok((-2, 1000, 1, 1000, 1))),
    ("\t- 2 V\tto\t- 1 V ", Ok((-1, -2, 1, -1, 1))),
    ("1to 2V", Ok((-1, 1, 1, 2, 1))),
    ("3k\u{2126}+/-1ohm", Ok((-2, 2999, 1, 3001, 1))),
    ("-0%", Ok((0, 0, 1, 0, 1))),
    ("7", Ok((0, 7, 1, 7, 1))),
    ("5% +/- 10 %", Ok((0, 9, 200, 11, 200))),
    ("2V to 1", Err(QuantityFault::EmptyRange)),
    ("1V to 1A", Err(QuantityFault::DimClash)),
    ("1kohn", Err(QuantityFault::UnknownUnit)),
    ("1em", Err(QuantityFault::UnknownUnit)),
    ("1k", Err(QuantityFault::UnknownUnit)),
    ("1KV", Err(QuantityFault::UnknownUnit)),
    ("1kkV", Err(QuantityFault::UnknownUnit)),
    ("1ohmohm", Err(QuantityFault::UnknownUnit)),
    ("1 to2V", Err(QuantityFault::UnknownUnit)),
    ("1e400V", Err(QuantityFault::Wide)),
    ("1e400kohn", Err(QuantityFault::UnknownUnit)),
    ("1V to 1e400A", Err(QuantityFault::DimClash)),
];

#[test]
fn texts_of_literals(rt: HostRuntime) {
    for (text, want) in LITERALS {
        assert!(rt; is_read(text, *want), "{text}");
    }
}

/// Texts that are no literals.
const NO_LITERALS: &[&str] = &[
    "",
    " \t ",
    "V",
    "kV",
    "to",
    "%",
    "1 V V",
    "--1",
    "+1",
    "1 in",
    "1 to",
    "1 +/-",
    "1 + /- 2",
    "1 +/- -1",
    "1V\n",
    "1.5.2",
    "1 2",
    "1V +/- 1 to 2",
    "1\u{A0}V",
    "1V\u{D7}",
    "1%%",
    "\u{661}V",
];

#[test]
fn texts_that_are_no_literals(rt: HostRuntime) {
    for text in NO_LITERALS {
        assert!(rt; is_read(text, Err(QuantityFault::BadText)), "{text}");
    }
}

/// The front of a text, what it goes on with, its end, and what is read of it.
const LONG: &[(&str, &str, &str, Reading)] = &[
    ("", " ", "1V", Ok((-1, 1, 1, 1, 1))),
    ("", "0", "1V", Ok((-1, 1, 1, 1, 1))),
    ("1", "0", "V", Err(QuantityFault::Wide)),
    ("1 ", "V", "", Err(QuantityFault::UnknownUnit)),
    ("1", " ", "", Ok((0, 1, 1, 1, 1))),
    ("1", "-", "", Err(QuantityFault::BadText)),
];

/// Whether a text with its middle so many times is read so.
fn is_read_long(
    alloc: Global,
    ends: (&str, &str),
    more: &str,
    want: Reading,
) -> Result<bool, AllocError> {
    let mut text = String::from_str(alloc, ends.0)?;
    for _ in 0..100_000 {
        text.push_str(more)?;
    }
    text.push_str(ends.1)?;
    Ok(is_read(text.as_str(), want))
}

#[test]
fn long_texts(rt: HostRuntime) -> Result<(), Fail> {
    for (first, more, last, want) in LONG {
        assert!(rt;
            is_read_long(rt.alloc(), (first, last), more, *want)?,
            "{first}{more}{last}"
        );
    }
    Ok(())
}
