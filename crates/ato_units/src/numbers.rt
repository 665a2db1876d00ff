//! Fractions whose operations cannot be refused.
ghost use Rattle.ato_frac.specs.Fractions.{value_of};
ghost use Rattle.ato_frac.specs.Numbers.{ten_to};
ghost use Rattle.ato_rational.specs.Rational.{◌≈ℚ◌, abs_ℚ};
ghost use Rattle.ato_units.specs.Fractions.{IsSmallPower};

use ato_frac::Frac;

/// 10 to a power from -18 to 18.
pub(crate) fn power_of_ten(power: i32) -> Frac
    requires { IsSmallPower power }
    ensures { value_of result ≈ℚ ten_to power }
{
    Frac::power_of_ten(power)
}

/// A fraction without its sign.
pub(crate) fn size(f: &Frac) -> Frac
    ensures { value_of result ≈ℚ abs_ℚ (value_of f.now) }
{
    if f.numer() < 0 { f.opposite() } else { *f }
}
