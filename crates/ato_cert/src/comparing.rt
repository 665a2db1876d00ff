//! The order of fractions as a test.
ghost use Rattle.std.specs.Prelude.{◌↔◌, IsTrue};
ghost use Rattle.ato_rational.specs.Rational.{◌≤ℚ◌};
ghost use Rattle.ato_frac.specs.Fractions.{value_of};

use ato_frac::Frac;
use std::cmp::Ordering;

/// Whether a fraction is at most another.
pub fn is_at_most(a: &Frac, b: &Frac) -> bool
    ensures { IsTrue result ↔ (value_of a.now ≤ℚ value_of b.now) }
{
    a.compare(b) != Ordering::Greater
}
