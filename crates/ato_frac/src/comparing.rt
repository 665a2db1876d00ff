//! Which of two exact numbers is the lesser, and which the greater.
ghost use Rattle.std.specs.Prelude.{◌≡◌, ◌⊎◌, MatchBool};
ghost use Rattle.ato_rational.specs.Rational.{◌≤ℚ◌, ◌<ℚ◌};

use crate::Exact;
use std::cmp::Ordering;

/// Whether x is at most y.
pub fn at_most<Q: Exact>(x: &Q, y: &Q) -> bool
    ensures { MatchBool result (Q.value x.now ≤ℚ Q.value y.now) (Q.value y.now <ℚ Q.value x.now) }
{
    match x.compare(y) {
        Ordering::Greater => false,
        _ => true,
    }
}

/// The lesser of two numbers.
pub fn lesser<Q: Exact>(x: Q, y: Q) -> Q
    ensures left { Q.value result ≤ℚ Q.value x }
    ensures right { Q.value result ≤ℚ Q.value y }
    ensures one { (result ≡ x) ⊎ (result ≡ y) }
{
    if at_most(&x, &y) { x } else { y }
}

/// The greater of two numbers.
pub fn greater<Q: Exact>(x: Q, y: Q) -> Q
    ensures left { Q.value x ≤ℚ Q.value result }
    ensures right { Q.value y ≤ℚ Q.value result }
    ensures one { (result ≡ x) ⊎ (result ≡ y) }
{
    if at_most(&x, &y) { y } else { x }
}
