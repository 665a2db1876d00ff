//! The least interval around four numbers.
ghost use Rattle.std.specs.Prelude.{◌≡◌, ◌⊎◌};
ghost use Rattle.ato_interval.specs.Ends.{Holds};

use crate::Interval;
use ato_frac::{Exact, greater, lesser};

/// The least interval that holds four numbers.
#[tactic(auto, using(ato_rational::proofs::Order::chains))]
pub(crate) fn around<Q: Exact>(a: Q, b: Q, c: Q, d: Q) -> Interval<Q>
    ensures first { Holds Q.value result (Q.value a) }
    ensures second { Holds Q.value result (Q.value b) }
    ensures third { Holds Q.value result (Q.value c) }
    ensures fourth { Holds Q.value result (Q.value d) }
    ensures low_is { ((result.low ≡ a) ⊎ (result.low ≡ b)) ⊎ ((result.low ≡ c) ⊎ (result.low ≡ d)) }
    ensures high_is { ((result.high ≡ a) ⊎ (result.high ≡ b)) ⊎ ((result.high ≡ c) ⊎ (result.high ≡ d)) }
{
    let low = lesser(lesser(a, b), lesser(c, d));
    let high = greater(greater(a, b), greater(c, d));
    Interval { low, high }
}
