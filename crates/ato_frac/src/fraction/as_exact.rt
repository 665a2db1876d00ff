//! Fractions as exact numbers.
ghost use Rattle.ato_frac.specs.Fractions.{value_of, CanAdd, CanSubtract, CanMultiply, CanDivide};
ghost use Rattle.ato_frac.specs.OneNumber.{fraction_same};

use crate::{Divides, Exact, Frac, NumFault};
use std::cmp::Ordering;

impl Exact for Frac {
    ghost value = { value_of };

    ghost can_add = { CanAdd };

    ghost can_subtract = { CanSubtract };

    ghost can_multiply = { CanMultiply };

    ghost one_of_value = { fraction_same };

    fn zero() -> Frac {
        Frac { numer: 0, denom: 1 }
    }

    fn one() -> Frac {
        Frac { numer: 1, denom: 1 }
    }

    fn plus(&self, o: &Frac) -> Option<Frac> {
        self.add(o).ok()
    }

    fn minus(&self, o: &Frac) -> Option<Frac> {
        self.sub(o).ok()
    }

    fn times(&self, o: &Frac) -> Option<Frac> {
        self.mul(o).ok()
    }

    fn compare(&self, o: &Frac) -> Ordering {
        self.compare(o)
    }
}

impl Divides for Frac {
    ghost can_divide = { CanDivide };

    fn over(&self, o: &Frac) -> Result<Frac, NumFault> {
        self.div(o)
    }
}
