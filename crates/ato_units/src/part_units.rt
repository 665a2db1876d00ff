//! The units that count for the parts of a literal.
ghost use Rattle.std.specs.Prelude.{◌≡◌, Ok, Err, MatchResult, option_map};
ghost use Rattle.ato_units.specs.Quantities.{plain, is_relative, own_unit, units_of, alike};
ghost use Rattle.ato_units.specs.Parts.{both_meanings};
ghost use Rattle.ato_units.specs.UnitReading.{known_meaning};

use crate::Dim;
use crate::known::Known;
use crate::quantities::{Form, QuantityFault};
use crate::units::known_unit;

/// Whether a tolerance is relative.
pub(crate) fn is_relative(form: Form, unit: Option<&str>) -> bool
    ensures { result ≡ is_relative form (option_map (λ t. t.now) unit.entry) }
{
    match form {
        Form::One => false,
        Form::To => false,
        Form::About => match unit {
            None => false,
            Some(text) => text == "%" || text == "percent",
        },
    }
}

/// The unit of a part, if it has one. None where it is unknown.
pub(crate) fn own_unit(unit: Option<&str>) -> Option<Option<Known>>
    ensures { option_map (option_map known_meaning) result ≡ own_unit (option_map (λ t. t.now) unit.entry) }
{
    match unit {
        None => Some(None),
        Some(text) => match known_unit(text) {
            None => None,
            Some(known) => Some(Some(known)),
        },
    }
}

/// The units that count for both parts.
pub(crate) fn units_of(
    relative: bool,
    first: Option<Option<Known>>,
    second: Option<Option<Known>>,
) -> Result<(Known, Known), (QuantityFault, bool)>
    ensures { MatchResult result
        (λ u. units_of relative (option_map (option_map known_meaning) first) (option_map (option_map known_meaning) second) ≡ Ok (both_meanings u))
        (λ e. units_of relative (option_map (option_map known_meaning) first) (option_map (option_map known_meaning) second) ≡ Err e) }
{
    let Some(first) = first else {
        return Err((QuantityFault::UnknownUnit, false))
    };
    let Some(second) = second else {
        return Err((QuantityFault::UnknownUnit, true))
    };
    if relative {
        return Ok((first.unwrap_or(plain()), second.unwrap_or(plain())));
    }
    alike(
        first.or(second).unwrap_or(plain()),
        second.or(first).unwrap_or(plain()),
    )
}

/// Two units of one dimension.
fn alike(first: Known, second: Known) -> Result<(Known, Known), (QuantityFault, bool)>
    ensures { MatchResult result
        (λ u. alike (known_meaning first) (known_meaning second) ≡ Ok (both_meanings u))
        (λ e. alike (known_meaning first) (known_meaning second) ≡ Err e) }
{
    if first.dim == second.dim {
        Ok((first, second))
    } else {
        Err((QuantityFault::DimClash, true))
    }
}

/// What counts as the unit of a number without one.
fn plain() -> Known
    ensures { known_meaning result ≡ plain }
{
    Known {
        dim: Dim([0, 0, 0, 0, 0, 0, 0]),
        tens: 0,
    }
}
