//! The units of the SI that the language knows, with their prefixes.
ghost use Rattle.std.specs.Prelude.{◌≡◌};
ghost use Rattle.ato_units.specs.Units.{prefixable, whole_only, prefixes, quantity_words};
ghost use Rattle.ato_units.specs.Tables.{listed, listed_prefixes};

use crate::Dim;
use crate::table::{Entry, Prefix, UnitTable};

// exponents of m, kg, s, A, K, mol, cd
const NUMBER: Dim = Dim([0, 0, 0, 0, 0, 0, 0]);

const METRE: Dim = Dim([1, 0, 0, 0, 0, 0, 0]);

const KILOGRAM: Dim = Dim([0, 1, 0, 0, 0, 0, 0]);

const SECOND: Dim = Dim([0, 0, 1, 0, 0, 0, 0]);

const AMPERE: Dim = Dim([0, 0, 0, 1, 0, 0, 0]);

const KELVIN: Dim = Dim([0, 0, 0, 0, 1, 0, 0]);
// the volt is W/A
const VOLT: Dim = Dim([2, 1, -3, -1, 0, 0, 0]);
// the ohm is V/A
const OHM: Dim = Dim([2, 1, -3, -2, 0, 0, 0]);
// the farad is C/V
const FARAD: Dim = Dim([-2, -1, 4, 2, 0, 0, 0]);
// the henry is V s/A
const HENRY: Dim = Dim([2, 1, -2, -2, 0, 0, 0]);
// the watt is J/s
const WATT: Dim = Dim([2, 1, -3, 0, 0, 0, 0]);
// the hertz is 1/s
const HERTZ: Dim = Dim([0, 0, -1, 0, 0, 0, 0]);
// the coulomb is A s
const COULOMB: Dim = Dim([0, 0, 1, 1, 0, 0, 0]);
// the siemens is A/V
const SIEMENS: Dim = Dim([-2, -1, 3, 2, 0, 0, 0]);
// the joule is N m, or kg m²/s²
const JOULE: Dim = Dim([2, 1, -2, 0, 0, 0, 0]);

/// The names before which a prefix may stand.
const PREFIXABLE: [Entry; 16] = [
    Entry {
        name: "V",
        dim: VOLT,
        tens: 0,
    },
    Entry {
        name: "A",
        dim: AMPERE,
        tens: 0,
    },
    Entry {
        name: "ohm",
        dim: OHM,
        tens: 0,
    },
    // U+03A9, the Greek letter
    Entry {
        name: "Ω",
        dim: OHM,
        tens: 0,
    },
    // U+2126, the sign
    Entry {
        name: "Ω",
        dim: OHM,
        tens: 0,
    },
    Entry {
        name: "F",
        dim: FARAD,
        tens: 0,
    },
    Entry {
        name: "H",
        dim: HENRY,
        tens: 0,
    },
    Entry {
        name: "W",
        dim: WATT,
        tens: 0,
    },
    Entry {
        name: "Hz",
        dim: HERTZ,
        tens: 0,
    },
    Entry {
        name: "s",
        dim: SECOND,
        tens: 0,
    },
    Entry {
        name: "C",
        dim: COULOMB,
        tens: 0,
    },
    Entry {
        name: "S",
        dim: SIEMENS,
        tens: 0,
    },
    Entry {
        name: "J",
        dim: JOULE,
        tens: 0,
    },
    Entry {
        name: "m",
        dim: METRE,
        tens: 0,
    },
    // the gram is a thousandth of the kilogram
    Entry {
        name: "g",
        dim: KILOGRAM,
        tens: -3,
    },
    Entry {
        name: "K",
        dim: KELVIN,
        tens: 0,
    },
];

/// The names that stand alone.
const WHOLE_ONLY: [Entry; 22] = [
    Entry {
        name: "volt",
        dim: VOLT,
        tens: 0,
    },
    Entry {
        name: "volts",
        dim: VOLT,
        tens: 0,
    },
    Entry {
        name: "amp",
        dim: AMPERE,
        tens: 0,
    },
    Entry {
        name: "amps",
        dim: AMPERE,
        tens: 0,
    },
    Entry {
        name: "ampere",
        dim: AMPERE,
        tens: 0,
    },
    Entry {
        name: "amperes",
        dim: AMPERE,
        tens: 0,
    },
    Entry {
        name: "ohms",
        dim: OHM,
        tens: 0,
    },
    Entry {
        name: "farad",
        dim: FARAD,
        tens: 0,
    },
    Entry {
        name: "farads",
        dim: FARAD,
        tens: 0,
    },
    Entry {
        name: "henry",
        dim: HENRY,
        tens: 0,
    },
    Entry {
        name: "henries",
        dim: HENRY,
        tens: 0,
    },
    Entry {
        name: "watt",
        dim: WATT,
        tens: 0,
    },
    Entry {
        name: "watts",
        dim: WATT,
        tens: 0,
    },
    Entry {
        name: "hertz",
        dim: HERTZ,
        tens: 0,
    },
    Entry {
        name: "second",
        dim: SECOND,
        tens: 0,
    },
    Entry {
        name: "seconds",
        dim: SECOND,
        tens: 0,
    },
    Entry {
        name: "kelvin",
        dim: KELVIN,
        tens: 0,
    },
    Entry {
        name: "meter",
        dim: METRE,
        tens: 0,
    },
    Entry {
        name: "meters",
        dim: METRE,
        tens: 0,
    },
    Entry {
        name: "percent",
        dim: NUMBER,
        tens: -2,
    },
    Entry {
        name: "%",
        dim: NUMBER,
        tens: -2,
    },
    Entry {
        name: "ppm",
        dim: NUMBER,
        tens: -6,
    },
];

/// The prefixes of the SI from femto to tera; micro is `u` too.
const PREFIXES: [Prefix; 11] = [
    Prefix {
        text: "f",
        tens: -15,
    },
    Prefix {
        text: "p",
        tens: -12,
    },
    Prefix {
        text: "n",
        tens: -9,
    },
    Prefix {
        text: "u",
        tens: -6,
    },
    // U+00B5, the sign
    Prefix {
        text: "µ",
        tens: -6,
    },
    // U+03BC, the Greek letter
    Prefix {
        text: "μ",
        tens: -6,
    },
    Prefix {
        text: "m",
        tens: -3,
    },
    Prefix { text: "k", tens: 3 },
    Prefix { text: "M", tens: 6 },
    Prefix { text: "G", tens: 9 },
    Prefix {
        text: "T",
        tens: 12,
    },
];

/// The words for quantities.
const QUANTITY_WORDS: [Entry; 15] = [
    Entry {
        name: "dimensionless",
        dim: NUMBER,
        tens: 0,
    },
    Entry {
        name: "voltage",
        dim: VOLT,
        tens: 0,
    },
    Entry {
        name: "current",
        dim: AMPERE,
        tens: 0,
    },
    Entry {
        name: "resistance",
        dim: OHM,
        tens: 0,
    },
    Entry {
        name: "capacitance",
        dim: FARAD,
        tens: 0,
    },
    Entry {
        name: "inductance",
        dim: HENRY,
        tens: 0,
    },
    Entry {
        name: "power",
        dim: WATT,
        tens: 0,
    },
    Entry {
        name: "frequency",
        dim: HERTZ,
        tens: 0,
    },
    Entry {
        name: "time",
        dim: SECOND,
        tens: 0,
    },
    Entry {
        name: "charge",
        dim: COULOMB,
        tens: 0,
    },
    Entry {
        name: "conductance",
        dim: SIEMENS,
        tens: 0,
    },
    Entry {
        name: "energy",
        dim: JOULE,
        tens: 0,
    },
    Entry {
        name: "temperature",
        dim: KELVIN,
        tens: 0,
    },
    Entry {
        name: "length",
        dim: METRE,
        tens: 0,
    },
    Entry {
        name: "mass",
        dim: KILOGRAM,
        tens: 0,
    },
];

/// The table of all units.
const UNITS: UnitTable<38> = UnitTable {
    prefixable: &PREFIXABLE,
    whole_only: &WHOLE_ONLY,
};

/// The units of the table.
#[tactic(auto, unfolding(crate::specs::Units::prefixable, crate::specs::Units::whole_only, crate::specs::Units::prefixes, crate::specs::Tables::are_one_reading))]
pub(crate) fn units() -> UnitTable<38>
    ensures prefixable { listed result.prefixable.now ≡ prefixable }
    ensures whole_only { listed result.whole_only.now ≡ whole_only }
{
    UNITS
}

/// The prefixes.
#[tactic(auto, unfolding(crate::specs::Units::prefixes))]
pub(crate) fn prefixes() -> &'static [Prefix]
    ensures { listed_prefixes result.now ≡ prefixes }
{
    &PREFIXES
}

/// The words for quantities.
#[tactic(auto, unfolding(crate::specs::Units::quantity_words))]
pub(crate) fn quantity_words() -> &'static [Entry]
    ensures { listed result.now ≡ quantity_words }
{
    &QUANTITY_WORDS
}
