//! The four operations on fractions: the exact result, or a refusal by the operation's rule.
ghost use Rattle.std.specs.Prelude.{◌≡◌, ◌≢◌, ◌*◌, ◌<◌, ◌^◌, pos, ◌+ℤ◌, ◌*ℤ◌, neg_ℤ, unsigned_abs, MatchOption, MatchResult};
ghost use Rattle.ato_frac.specs.Fractions.{value_of, CanAdd, CanSubtract, CanMultiply, CanDivide};
ghost use Rattle.ato_frac.specs.Faults.{RefusesQuotient};
ghost use Rattle.ato_frac.specs.declared.faults.NumFault.TheVariants.{Wide};
ghost use Rattle.ato_rational.specs.Rational.{◌≈ℚ◌, ◌+ℚ◌, ◌-ℚ◌, ◌*ℚ◌, ◌/ℚ◌, neg_ℚ, inverse_ℚ, IsNotZero};

use crate::fraction::lowest_terms::{LIMIT, gcd, lowest, reduced};
use crate::{Frac, NumFault};

/// a ⋅ b, where it is below 2^127 in size.
fn product(a: i128, b: u128) -> Option<i128>
    requires { b < 2 ^ 127 }
    ensures { MatchOption result
        (¬ (unsigned_abs (a *ℤ pos b) < 2 ^ 127))
        (λ r. (r ≡ a *ℤ pos b) × (unsigned_abs r < 2 ^ 127)) }
{
    let r = a.checked_mul(b as i128)?;
    if r == i128::MIN { None } else { Some(r) }
}

/// a + b, where it is below 2^127 in size.
fn sum(a: i128, b: i128) -> Option<i128>
    ensures { MatchOption result
        (¬ (unsigned_abs (a +ℤ b) < 2 ^ 127))
        (λ r. (r ≡ a +ℤ b) × (unsigned_abs r < 2 ^ 127)) }
{
    let r = a.checked_add(b)?;
    if r == i128::MIN { None } else { Some(r) }
}

/// a ⋅ b, where it is below 2^127.
fn size_product(a: u128, b: u128) -> Option<u128>
    ensures { MatchOption result
        (¬ (a * b < 2 ^ 127))
        (λ r. (r ≡ a * b) × (r < 2 ^ 127)) }
{
    let r = a.checked_mul(b)?;
    if r < LIMIT { Some(r) } else { None }
}

impl Frac {
    /// The sum. For a/b + c/d with g the greatest common divisor of b and d, `Wide` exactly where
    /// a·(d/g), c·(b/g), their sum or (b/g)·d is 2^127 or more in size.
    pub fn add(&self, o: &Frac) -> Result<Frac, NumFault>
        ensures { MatchResult result
            (λ f. CanAdd self.now o.now × (value_of f ≈ℚ value_of self.now +ℚ value_of o.now))
            (λ e. (e ≡ Wide) × ¬ CanAdd self.now o.now) }
    {
        let g = gcd(self.denom, o.denom);
        let own = self.denom / g;
        let other = o.denom / g;
        let Some(left) = product(self.numer, other) else {
            return Err(NumFault::Wide)
        };
        let Some(right) = product(o.numer, own) else {
            return Err(NumFault::Wide)
        };
        let Some(total) = sum(left, right) else {
            return Err(NumFault::Wide)
        };
        let Some(common) = size_product(own, o.denom) else {
            return Err(NumFault::Wide)
        };
        Ok(reduced(total < 0, total.unsigned_abs(), common))
    }

    /// The difference, which is the sum with the opposite: `Wide` exactly where that is.
    pub fn sub(&self, o: &Frac) -> Result<Frac, NumFault>
        ensures { MatchResult result
            (λ f. CanSubtract self.now o.now × (value_of f ≈ℚ value_of self.now -ℚ value_of o.now))
            (λ e. (e ≡ Wide) × ¬ CanSubtract self.now o.now) }
    {
        let opposite = o.opposite();
        self.add(&opposite)
    }

    /// The product. `Wide` exactly where its lowest terms have a part of 2^127 or more in size.
    pub fn mul(&self, o: &Frac) -> Result<Frac, NumFault>
        ensures { MatchResult result
            (λ f. CanMultiply self.now o.now × (value_of f ≈ℚ value_of self.now *ℚ value_of o.now))
            (λ e. (e ≡ Wide) × ¬ CanMultiply self.now o.now) }
    {
        let a = self.size();
        let c = o.size();
        let g = gcd(a, o.denom);
        let h = gcd(c, self.denom);
        let Some(p) = size_product(a / g, c / h) else {
            return Err(NumFault::Wide)
        };
        let Some(q) = size_product(self.denom / h, o.denom / g) else {
            return Err(NumFault::Wide)
        };
        Ok(lowest(self.is_negative() != o.is_negative(), p, q))
    }

    /// The quotient. `ByZero` exactly where the divisor is 0, and else `Wide` exactly where the
    /// quotient's lowest terms have a part of 2^127 or more in size.
    pub fn div(&self, o: &Frac) -> Result<Frac, NumFault>
        ensures { MatchResult result
            (λ f. IsNotZero (value_of o.now)
            × CanDivide self.now o.now
            × (value_of f ≈ℚ value_of self.now /ℚ value_of o.now))
            (RefusesQuotient (value_of o.now) (¬ CanDivide self.now o.now)) }
    {
        if o.numer == 0 {
            return Err(NumFault::ByZero);
        }
        let inverse = o.inverse();
        self.mul(&inverse)
    }

    /// The opposite. It is never refused.
    pub fn opposite(&self) -> Frac
        ensures value { value_of result ≈ℚ neg_ℚ (value_of self.now) }
        ensures numer { (value_of result).num ≡ neg_ℤ (value_of self.now).num }
        ensures denom { (value_of result).den ≡ (value_of self.now).den }
    {
        lowest(!self.is_negative(), self.size(), self.denom)
    }

    /// 1 over a fraction that is not 0.
    fn inverse(&self) -> Frac
        requires { self.now.numer ≢ pos 0 }
        ensures numer { result.numer ≡ (inverse_ℚ (value_of self.now)).num }
        ensures denom { result.denom ≡ (inverse_ℚ (value_of self.now)).den }
    {
        lowest(self.is_negative(), self.denom, self.size())
    }
}
