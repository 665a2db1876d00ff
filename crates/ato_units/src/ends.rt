//! The values of parts, and the ends that they give.
ghost use Rattle.std.specs.Prelude.{MatchOption};
ghost use Rattle.ato_frac.specs.declared.fraction.Frac.{Frac};
ghost use Rattle.ato_units.specs.Quantities.{IsValue, AreEnds, AreAround, AreRelative};
ghost use Rattle.ato_units.specs.UnitReading.{known_meaning};

use crate::known::Known;
use crate::numbers::{power_of_ten, size};
use crate::quantities::Form;
use ato_frac::Frac;

/// The value of a part.
pub(crate) fn part_value(number: Option<Frac>, unit: &Known) -> Option<Frac>
    ensures { IsValue number (known_meaning unit.now) result }
{
    match number {
        None => None,
        Some(number) => {
            let scale = power_of_ten(unit.tens);
            number.mul(&scale).ok()
        }
    }
}

/// The ends of a literal.
pub(crate) fn ends(form: Form, relative: bool, n: &Frac, t: &Frac) -> Option<(Frac, Frac)>
    ensures { MatchOption result
        ((low high : Frac) → ¬ AreEnds form relative n.now t.now low high)
        (λ e. AreEnds form relative n.now t.now e.0 e.1) }
{
    match form {
        Form::One => Some((*n, *n)),
        Form::To => Some((*n, *t)),
        Form::About => {
            if relative {
                relative_ends(n, t)
            } else {
                ends_around(n, t)
            }
        }
    }
}

/// n - w and n + w.
fn ends_around(n: &Frac, w: &Frac) -> Option<(Frac, Frac)>
    ensures { MatchOption result
        ((low high : Frac) → ¬ AreAround n.now w.now low high)
        (λ e. AreAround n.now w.now e.0 e.1) }
{
    let low = n.sub(w).ok()?;
    let high = n.add(w).ok()?;
    Some((low, high))
}

/// n - w and n + w, with w the size of n·t.
fn relative_ends(n: &Frac, t: &Frac) -> Option<(Frac, Frac)>
    ensures { MatchOption result
        ((low high : Frac) → ¬ AreRelative n.now t.now low high)
        (λ e. AreRelative n.now t.now e.0 e.1) }
{
    match n.mul(t) {
        Ok(product) => {
            let w = size(&product);
            ends_around(n, &w)
        }
        Err(_) => None,
    }
}
