//! Quantities made of one or two parts.
ghost use Rattle.std.specs.Prelude.{◌≡◌, unwrap_or, option_map, is_some};
ghost use Rattle.ato_units.specs.Quantities.{Gives, has_second};
ghost use Rattle.ato_units.specs.Parts.{part_of, written};

use crate::Dim;
use crate::ends::{ends, part_value};
use crate::part_units::{is_relative, own_unit, units_of};
use ato_frac::Frac;
use std::cmp::Ordering;

/// A range of values of one dimension, with both ends in base units (metre, kilogram, second, ampere,
/// kelvin, mole and candela).
#[derive(Clone, Copy, Debug, PartialEq, Eq)]
pub struct Quantity {
    pub dim: Dim,
    pub low: Frac,
    pub high: Frac,
}

/// Why parts or a text give no quantity.
#[derive(Clone, Copy, Debug, PartialEq, Eq)]
pub enum QuantityFault {
    /// The text is no literal.
    BadText,
    /// A unit's text is no unit's.
    UnknownUnit,
    /// A number, a value or an end is too wide for a fraction.
    Wide,
    /// The low end is above the high end.
    EmptyRange,
    /// The two parts have different dimensions.
    DimClash,
}

/// How the parts of a literal stand together.
#[derive(Clone, Copy, Debug, PartialEq, Eq)]
pub enum Form {
    /// One part, which is both ends.
    One,
    /// Two ends.
    To,
    /// A nominal value and a tolerance.
    About,
}

/// A part of a literal: its number, with the sign, and its unit's text if it has one.
#[derive(Clone, Copy)]
pub struct Part<'a> {
    pub value: Frac,
    pub unit: Option<&'a str>,
}

/// A part as it is written: its number, unless that is too wide for a fraction, and its unit's text.
#[derive(Clone, Copy)]
pub(crate) struct WrittenPart<'a> {
    pub(crate) number: Option<Frac>,
    pub(crate) unit: Option<&'a str>,
}

/// The quantity of one or two parts, or the first fault, with whether the second part is meant. The
/// second part is there exactly where the form is not `One`.
///
/// A part's value is its number times its unit's scale; the unit of one part counts for both, and a
/// tolerance in `%` is relative and gives the nominal value none. The faults come in this order: the
/// first unit, the second unit, the dimensions (second part), the first value, the second value, the
/// ends (second part), a low end above the high end (second part).
pub fn combine(
    form: Form,
    first: &Part,
    second: Option<&Part>,
) -> Result<Quantity, (QuantityFault, bool)>
    requires { is_some second ≡ has_second form }
    ensures { Gives form (part_of first.now) (unwrap_or (option_map (λ p. part_of p.now) second.entry) (part_of first.now)) result }
{
    let own = as_written(first);
    match second {
        Some(part) => from_parts(form, &own, &as_written(part)),
        None => from_parts(form, &own, &own),
    }
}

/// A part whose number is there.
fn as_written<'a>(part: &Part<'a>) -> WrittenPart<'a>
    ensures { written result ≡ part_of part.now }
{
    WrittenPart {
        number: Some(part.value),
        unit: part.unit,
    }
}

/// The quantity of two parts as they are written, where one part counts as both.
pub(crate) fn from_parts(
    form: Form,
    first: &WrittenPart,
    second: &WrittenPart,
) -> Result<Quantity, (QuantityFault, bool)>
    ensures { Gives form (written first.now) (written second.now) result }
{
    let relative = is_relative(form, second.unit);
    let (unit, other) = match units_of(relative, own_unit(first.unit), own_unit(second.unit)) {
        Ok(units) => units,
        Err(fault) => return Err(fault),
    };
    let Some(n) = part_value(first.number, &unit) else {
        return Err((QuantityFault::Wide, false))
    };
    let Some(t) = part_value(second.number, &other) else {
        return Err((QuantityFault::Wide, true))
    };
    let Some((low, high)) = ends(form, relative, &n, &t) else {
        return Err((QuantityFault::Wide, true))
    };
    if low.compare(&high) == Ordering::Greater {
        return Err((QuantityFault::EmptyRange, true));
    }
    Ok(Quantity {
        dim: unit.dim,
        low,
        high,
    })
}
