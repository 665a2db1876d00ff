//! Whole numbers of coins.
ghost use Rattle.std.specs.Prelude.{◌+◌, ◌*◌, ◌≤◌, ◌<◌, ◌^◌, pos};
ghost use Rattle.ato_rational.specs.Rational.{whole};
ghost use Rattle.ato_frac.specs.OneNumber.{coin_same};

use crate::Exact;
use std::cmp::Ordering;

/// A whole number of coins, from 0 to 2^64 - 1. A result outside is absent: nothing wraps.
#[derive(Clone, Copy, Debug, PartialEq, Eq)]
pub struct Coin(pub u64);

impl Exact for Coin {
    ghost value = { λ c. whole (pos c.0) };

    ghost can_add = { λ x y. x.0 + y.0 < 2 ^ 64 };

    ghost can_subtract = { λ x y. y.0 ≤ x.0 };

    ghost can_multiply = { λ x y. x.0 * y.0 < 2 ^ 64 };

    ghost one_of_value = { coin_same };

    fn zero() -> Coin {
        Coin(0)
    }

    fn one() -> Coin {
        Coin(1)
    }

    fn plus(&self, o: &Coin) -> Option<Coin> {
        Some(Coin(self.0.checked_add(o.0)?))
    }

    fn minus(&self, o: &Coin) -> Option<Coin> {
        Some(Coin(self.0.checked_sub(o.0)?))
    }

    fn times(&self, o: &Coin) -> Option<Coin> {
        Some(Coin(self.0.checked_mul(o.0)?))
    }

    fn compare(&self, o: &Coin) -> Ordering {
        self.0.cmp(&o.0)
    }
}
