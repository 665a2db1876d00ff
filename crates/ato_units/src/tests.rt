use crate::{Dim, Form, Part, Quantity, QuantityFault, Unit, combine, read_dim, read_unit};
use ato_frac::{Exact, Frac};
use std::alloc::{AllocError, Global};
use std::test::Fail;

/// The unit's dimension and the two parts of its scale.
fn unit_of(text: &str) -> Option<(Dim, i128, i128)> {
    match read_unit(text) {
        Ok(Unit { dim, scale }) => Some((dim, scale.numer(), scale.denom())),
        Err(_) => None,
    }
}

/// Units, the names of their dimensions, and the exponents.
const DIMS: &[(&str, &str, [i8; 7])] = &[
    ("percent", "dimensionless", [0, 0, 0, 0, 0, 0, 0]),
    ("V", "voltage", [2, 1, -3, -1, 0, 0, 0]),
    ("A", "current", [0, 0, 0, 1, 0, 0, 0]),
    ("ohm", "resistance", [2, 1, -3, -2, 0, 0, 0]),
    ("F", "capacitance", [-2, -1, 4, 2, 0, 0, 0]),
    ("H", "inductance", [2, 1, -2, -2, 0, 0, 0]),
    ("W", "power", [2, 1, -3, 0, 0, 0, 0]),
    ("Hz", "frequency", [0, 0, -1, 0, 0, 0, 0]),
    ("s", "time", [0, 0, 1, 0, 0, 0, 0]),
    ("C", "charge", [0, 0, 1, 1, 0, 0, 0]),
    ("S", "conductance", [-2, -1, 3, 2, 0, 0, 0]),
    ("J", "energy", [2, 1, -2, 0, 0, 0, 0]),
    ("K", "temperature", [0, 0, 0, 0, 1, 0, 0]),
    ("m", "length", [1, 0, 0, 0, 0, 0, 0]),
    ("kg", "mass", [0, 1, 0, 0, 0, 0, 0]),
];

/// Whether a unit and the name of a dimension have these exponents, and the name is no unit.
fn is_dim(text: &str, word: &str, dim: Dim) -> bool {
    read_dim(text).ok() == Some(dim)
        && read_dim(word).ok() == Some(dim)
        && read_unit(word).ok().is_none()
}

#[test]
fn dimensions_in_base_units(rt: HostRuntime) {
    for (text, word, dim) in DIMS {
        assert!(rt; is_dim(text, word, Dim(*dim)), "{text}");
    }
}

const NUMBER: Dim = Dim([0, 0, 0, 0, 0, 0, 0]);

const LENGTH: Dim = Dim([1, 0, 0, 0, 0, 0, 0]);

const MASS: Dim = Dim([0, 1, 0, 0, 0, 0, 0]);

const TIME: Dim = Dim([0, 0, 1, 0, 0, 0, 0]);

const FREQUENCY: Dim = Dim([0, 0, -1, 0, 0, 0, 0]);

const OHM: Dim = Dim([2, 1, -3, -2, 0, 0, 0]);

/// Texts, and the dimensions with the two parts of the scales of those that are units.
const UNITS: &[(&str, Option<(Dim, i128, i128)>)] = &[
    ("m", Some((LENGTH, 1, 1))),
    ("mm", Some((LENGTH, 1, 1000))),
    ("Mm", Some((LENGTH, 1_000_000, 1))),
    ("meters", Some((LENGTH, 1, 1))),
    ("ms", Some((TIME, 1, 1000))),
    ("s", Some((TIME, 1, 1))),
    ("Ts", Some((TIME, 1_000_000_000_000, 1))),
    ("fs", Some((TIME, 1, 1_000_000_000_000_000))),
    ("Hz", Some((FREQUENCY, 1, 1))),
    ("g", Some((MASS, 1, 1000))),
    ("kg", Some((MASS, 1, 1))),
    ("fg", Some((MASS, 1, 1_000_000_000_000_000_000))),
    ("percent", Some((NUMBER, 1, 100))),
    ("%", Some((NUMBER, 1, 100))),
    ("ppm", Some((NUMBER, 1, 1_000_000))),
    ("\u{3A9}", Some((OHM, 1, 1))),
    ("\u{2126}", Some((OHM, 1, 1))),
    ("k\u{2126}", Some((OHM, 1000, 1))),
    ("\u{B5}\u{3A9}", Some((OHM, 1, 1_000_000))),
    ("\u{3BC}ohm", Some((OHM, 1, 1_000_000))),
    ("uohm", Some((OHM, 1, 1_000_000))),
    ("", None),
    ("k", None),
    ("u", None),
    ("KV", None),
    ("kkV", None),
    ("kvolt", None),
    ("kpercent", None),
    ("k%", None),
    ("ohmohm", None),
    ("v", None),
    ("hz", None),
    ("volt ", None),
    (" V", None),
    ("\u{3A9}\u{3A9}", None),
    ("\u{CE}", None),
    ("kohn", None),
    ("voltage", None),
];

#[test]
fn texts_that_have_one_reading(rt: HostRuntime) {
    for (text, want) in UNITS {
        assert!(rt; unit_of(text) == *want, "{text}");
    }
}

/// Names that take a prefix.
const NAMES: &[&str] = &[
    "V", "A", "ohm", "\u{3A9}", "\u{2126}", "F", "H", "W", "Hz", "s", "C", "S", "J", "m", "g", "K",
];

/// Prefixes and their factors.
const PREFIXES: &[(&str, &str)] = &[
    ("f", "1e-15"),
    ("p", "1e-12"),
    ("n", "1e-9"),
    ("u", "1e-6"),
    ("\u{B5}", "1e-6"),
    ("\u{3BC}", "1e-6"),
    ("m", "1e-3"),
    ("k", "1e3"),
    ("M", "1e6"),
    ("G", "1e9"),
    ("T", "1e12"),
];

/// Whether a prefix before a name gives its factor, and the name's dimension.
fn is_power(alloc: Global, name: &str, prefix: &str, factor: &str) -> Result<bool, AllocError> {
    let text = format!(in alloc; "{prefix}{name}")?;
    let Ok(own) = read_unit(name) else {
        return Ok(false);
    };
    let Ok(unit) = read_unit(text.as_str()) else {
        return Ok(false);
    };
    let Ok(factor) = Frac::from_decimal(factor.as_bytes()) else {
        return Ok(false);
    };
    Ok(unit.dim == own.dim && Some(unit.scale) == own.scale.mul(&factor).ok())
}

#[test]
fn prefixes_are_powers_of_ten(rt: HostRuntime) -> Result<(), Fail> {
    for name in NAMES {
        for (prefix, factor) in PREFIXES {
            assert!(rt;
                is_power(rt.alloc(), name, prefix, factor)?,
                "{prefix}{name}"
            );
        }
    }
    Ok(())
}

const VOLT: Dim = Dim([2, 1, -3, -1, 0, 0, 0]);

const AMPERE: Dim = Dim([0, 0, 0, 1, 0, 0, 0]);

const MOST: Dim = Dim([0, 0, 0, 0, 127, 0, -128]);

const LEAST: Dim = Dim([0, 0, 0, 0, -1, 0, 1]);

/// Two dimensions, their product and their quotient.
const TIMES: &[(Dim, Dim, Option<Dim>, Option<Dim>)] = &[
    (
        VOLT,
        AMPERE,
        Some(Dim([2, 1, -3, 0, 0, 0, 0])),
        Some(Dim([2, 1, -3, -2, 0, 0, 0])),
    ),
    (MOST, LEAST, Some(Dim([0, 0, 0, 0, 126, 0, -127])), None),
    (MOST, MOST, None, Some(Dim([0, 0, 0, 0, 0, 0, 0]))),
];

/// Dimensions, exponents and powers.
const POWERS: &[(Dim, u32, Option<Dim>)] = &[
    (VOLT, 3, Some(Dim([6, 3, -9, -3, 0, 0, 0]))),
    (VOLT, 0, Some(Dim([0, 0, 0, 0, 0, 0, 0]))),
    (VOLT, 42, Some(Dim([84, 42, -126, -42, 0, 0, 0]))),
    (VOLT, 43, None),
    (AMPERE, u32::MAX, None),
];

#[test]
fn exponents_stay_in_range(rt: HostRuntime) {
    for (one, other, product, quotient) in TIMES {
        assert!(rt; one.times(other) == *product && one.over(other) == *quotient);
    }
    for (one, exponent, power) in POWERS {
        assert!(rt; one.power(*exponent) == *power, "{exponent}");
    }
}

/// A part with the number n / d.
fn part(n: i128, d: i128, unit: Option<&str>) -> Part<'_> {
    let value = match Frac::new(n, d) {
        Some(value) => value,
        None => Frac::zero(),
    };
    Part { value, unit }
}

/// The exponent of the ampere and the four parts of the ends.
pub(crate) fn ends_of(quantity: Quantity) -> (i8, i128, i128, i128, i128) {
    let low = quantity.low;
    let high = quantity.high;
    (
        quantity.dim.0[3],
        low.numer(),
        low.denom(),
        high.numer(),
        high.denom(),
    )
}

const VOLTS: Option<&str> = Some("V");

const PERCENT: Option<&str> = Some("%");

const ABOUT: bool = true;

const TO: bool = false;

/// The quantity of two parts.
fn joined(about: bool, one: &Part, other: &Part) -> Result<Quantity, (QuantityFault, bool)> {
    if about {
        combine(Form::About, one, Some(other))
    } else {
        combine(Form::To, one, Some(other))
    }
}

/// A whole number with its unit.
type Number = (i128, Option<&'static str>);

/// Two parts, joined by `ABOUT` or `TO`, and what is given.
const RANGES: &[(Number, bool, Number, (i8, i128, i128, i128, i128))] = &[
    (
        (10, Some("kohm")),
        ABOUT,
        (5, PERCENT),
        (-2, 9500, 1, 10500, 1),
    ),
    ((1, None), TO, (2, VOLTS), (-1, 1, 1, 2, 1)),
    ((1, VOLTS), TO, (2, None), (-1, 1, 1, 2, 1)),
    ((-1, VOLTS), ABOUT, (10, PERCENT), (-1, -11, 10, -9, 10)),
    (
        (-1, VOLTS),
        ABOUT,
        (10, Some("percent")),
        (-1, -11, 10, -9, 10),
    ),
    ((3, VOLTS), ABOUT, (100, Some("mV")), (-1, 29, 10, 31, 10)),
    ((3, None), ABOUT, (1, VOLTS), (-1, 2, 1, 4, 1)),
    ((5, None), ABOUT, (10, PERCENT), (0, 9, 2, 11, 2)),
    // hundredths: a relative tolerance, and one that takes its unit from the nominal value
    ((5, PERCENT), ABOUT, (10, PERCENT), (0, 9, 200, 11, 200)),
    ((5, PERCENT), ABOUT, (1, None), (0, 1, 25, 3, 50)),
    ((5, None), TO, (10, PERCENT), (0, 1, 20, 1, 10)),
    ((0, VOLTS), ABOUT, (10, PERCENT), (-1, 0, 1, 0, 1)),
    ((2, VOLTS), TO, (2000, Some("mV")), (-1, 2, 1, 2, 1)),
];

/// What two parts give.
fn given(first: &Number, about: bool, second: &Number) -> Result<Quantity, (QuantityFault, bool)> {
    let one = part(first.0, 1, first.1);
    let other = part(second.0, 1, second.1);
    joined(about, &one, &other)
}

#[test]
fn two_parts_give_a_range(rt: HostRuntime) {
    for (number, (first, about, second, want)) in RANGES.iter().enumerate() {
        let ends = given(first, *about, second).ok().map(ends_of);
        assert!(rt; ends == Some(*want), "case {number}");
    }
    let alone = part(1, 2, Some("mA"));
    let ends = combine(Form::One, &alone, None).ok().map(ends_of);
    assert!(rt; ends == Some((1, 1, 2000, 1, 2000)));
}

/// Two parts, joined by `ABOUT` or `TO`, and their first fault.
const FAULTS: &[(Number, bool, Number, (QuantityFault, bool))] = &[
    (
        (1, Some("kohn")),
        TO,
        (1, Some("x")),
        (QuantityFault::UnknownUnit, false),
    ),
    (
        (i128::MAX, Some("kV")),
        TO,
        (1, Some("x")),
        (QuantityFault::UnknownUnit, true),
    ),
    (
        (i128::MAX, Some("kV")),
        TO,
        (1, Some("A")),
        (QuantityFault::DimClash, true),
    ),
    (
        (1, VOLTS),
        ABOUT,
        (1, Some("ppm")),
        (QuantityFault::DimClash, true),
    ),
    (
        (1, VOLTS),
        TO,
        (1, PERCENT),
        (QuantityFault::DimClash, true),
    ),
    (
        (i128::MAX, Some("kV")),
        TO,
        (i128::MAX, Some("kV")),
        (QuantityFault::Wide, false),
    ),
    (
        (1, VOLTS),
        TO,
        (i128::MAX, Some("kV")),
        (QuantityFault::Wide, true),
    ),
    (
        (i128::MAX, VOLTS),
        ABOUT,
        (1, VOLTS),
        (QuantityFault::Wide, true),
    ),
    (
        (i128::MAX, VOLTS),
        ABOUT,
        (50, PERCENT),
        (QuantityFault::Wide, true),
    ),
    ((2, VOLTS), TO, (1, None), (QuantityFault::EmptyRange, true)),
    (
        (1, VOLTS),
        ABOUT,
        (-1, None),
        (QuantityFault::EmptyRange, true),
    ),
];

#[test]
fn the_first_fault_stands(rt: HostRuntime) {
    for (number, (first, about, second, want)) in FAULTS.iter().enumerate() {
        let fault = given(first, *about, second).err();
        assert!(rt; fault == Some(*want), "case {number}");
    }
    let wide = part(i128::MAX, 1, Some("kV"));
    let fault = combine(Form::One, &wide, None).err();
    assert!(rt; fault == Some((QuantityFault::Wide, false)));
}
