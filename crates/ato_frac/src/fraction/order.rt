//! Comparing fractions by their cross products.
ghost use Rattle.std.specs.Prelude.{◌≡◌, ◌*◌};
ghost use Rattle.std.specs.Ordering.{nat_cmp};
ghost use Rattle.std.specs.declared.cmp.Ordering.TheVariants.{Equal};
ghost use Rattle.ato_frac.specs.Fractions.{value_of};
ghost use Rattle.ato_rational.specs.Rational.{Orders};

use crate::Frac;
use std::cmp::Ordering;

/// Compares a ⋅ b with c ⋅ d, whose products may have 256 bits.
fn compare_products(a: u128, b: u128, c: u128, d: u128) -> Ordering
    ensures { result ≡ nat_cmp (a * b) (c * d) }
{
    let (low, high) = a.carrying_mul(b, 0);
    let (other_low, other_high) = c.carrying_mul(d, 0);
    if high != other_high {
        high.cmp(&other_high)
    } else {
        low.cmp(&other_low)
    }
}

impl Frac {
    /// How the two values stand to each other, for all fractions: the cross products are compared in
    /// full. Equal values are one fraction.
    pub fn compare(&self, o: &Frac) -> Ordering
        ensures order { Orders (value_of self.now) (value_of o.now) result }
        ensures one { result ≡ Equal → self.now ≡ o.now }
    {
        self.order(o)
    }

    /// The order, by the signs and then by the cross products.
    fn order(&self, o: &Frac) -> Ordering
        ensures { Orders (value_of self.now) (value_of o.now) result }
    {
        let a = self.numer.unsigned_abs();
        let c = o.numer.unsigned_abs();
        if self.numer < 0 {
            if o.numer < 0 {
                compare_products(c, self.denom, a, o.denom)
            } else {
                Ordering::Less
            }
        } else if o.numer < 0 {
            Ordering::Greater
        } else {
            compare_products(a, o.denom, c, self.denom)
        }
    }
}
