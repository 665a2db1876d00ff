//! What exact numbers have in common: each means a rational value, and an operation gives exactly
//! the value of its result or refuses it.
ghost use Rattle.std.specs.Prelude.{◌≡◌, MatchOption, MatchResult};
ghost use Rattle.ato_rational.specs.Rational.{ℚ, ◌≈ℚ◌, ◌+ℚ◌, ◌-ℚ◌, ◌*ℚ◌, ◌/ℚ◌, IsNotZero, zero_ℚ, one_ℚ, Orders};
ghost use Rattle.ato_frac.specs.Faults.{RefusesQuotient};

use crate::NumFault;
use std::cmp::Ordering;

/// Numbers that mean rational values, with sums, differences and products that are exact or absent.
///
/// Whether a result is there is a matter of the type alone: one rule of two operands for each
/// operation. Since each value has one number at most, this is a matter of the two values alone.
pub trait Exact: Copy {
    // what a number means
    ghost value: { Self → ℚ };

    // where a sum, a difference and a product are there
    ghost can_add: { Self → Self → Type 0 };

    ghost can_subtract: { Self → Self → Type 0 };

    ghost can_multiply: { Self → Self → Type 0 };

    /// The number 0.
    fn zero() -> Self
        ensures { value result ≈ℚ zero_ℚ };

    /// The number 1.
    fn one() -> Self
        ensures { value result ≈ℚ one_ℚ };

    /// The sum, or None exactly where the type has no such sum.
    fn plus(&self, o: &Self) -> Option<Self>
        ensures { MatchOption result
            (¬ can_add self.now o.now)
            (λ r. can_add self.now o.now × (value r ≈ℚ value self.now +ℚ value o.now)) };

    /// The difference, or None exactly where the type has no such difference.
    fn minus(&self, o: &Self) -> Option<Self>
        ensures { MatchOption result
            (¬ can_subtract self.now o.now)
            (λ r. can_subtract self.now o.now × (value r ≈ℚ value self.now -ℚ value o.now)) };

    /// The product, or None exactly where the type has no such product.
    fn times(&self, o: &Self) -> Option<Self>
        ensures { MatchOption result
            (¬ can_multiply self.now o.now)
            (λ r. can_multiply self.now o.now × (value r ≈ℚ value self.now *ℚ value o.now)) };

    /// How the two values stand to each other.
    fn compare(&self, o: &Self) -> Ordering
        ensures { Orders (value self.now) (value o.now) result };

    // Numbers of one value are one number.
    ghost one_of_value: { (x y : Self) → value x ≈ℚ value y → x ≡ y };
}

/// Exact numbers with quotients.
pub trait Divides: Exact {
    // where a quotient by a number that is not 0 is there
    ghost can_divide: { Self → Self → Type 0 };

    /// The quotient. `ByZero` exactly where the divisor is 0, and else `Wide` exactly where the
    /// type has no such quotient.
    fn over(&self, o: &Self) -> Result<Self, NumFault>
        ensures { MatchResult result
            (λ r. IsNotZero (Self.value o.now)
            × can_divide self.now o.now
            × (Self.value r ≈ℚ Self.value self.now /ℚ Self.value o.now))
            (RefusesQuotient (Self.value o.now) (¬ can_divide self.now o.now)) };
}
