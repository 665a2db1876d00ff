//! What holds of intervals beyond single calls, as contracts of functions that do nothing.
ghost use Rattle.std.specs.Prelude.{◌↔◌, ℕ, List};
ghost use Rattle.ato_rational.specs.Rational.{ℚ, ◌+ℚ◌, ◌-ℚ◌, ◌*ℚ◌, ◌/ℚ◌, min_ℚ, max_ℚ, abs_ℚ, power_ℚ, IsNotZero};
ghost use Rattle.ato_rational.specs.Ranges.{AtEnds, IsApartFromZero};
ghost use Rattle.ato_interval.specs.Corners.{EndsAtCorners};
ghost use Rattle.ato_interval.specs.Ends.{Ends, Holds, IsProper};
ghost use Rattle.ato_interval.specs.Points.{IsExactOn, IsExactAt};
ghost use Rattle.ato_interval.specs.Sets.{IsIn, AreRising};
ghost use Rattle.ato_interval.specs.Targets.{IsInOne, IsInPart};

use ato_frac::{Divides, Exact};

/// Over intervals of one point the operations are those of the numbers: an answer is one point, the
/// number's, and it is refused exactly where the number's operation is.
pub fn operations_on_points<Q: Divides>()
    ensures sums { (x y : Q) → IsExactOn Q.value ◌+ℚ◌ x y }
    ensures differences { (x y : Q) → IsExactOn Q.value ◌-ℚ◌ x y }
    ensures products { (x y : Q) → IsExactOn Q.value ◌*ℚ◌ x y }
    ensures quotients { (x y : Q) → IsNotZero (Q.value y) → IsExactOn Q.value ◌/ℚ◌ x y }
    ensures lesser { (x y : Q) → IsExactOn Q.value min_ℚ x y }
    ensures greater { (x y : Q) → IsExactOn Q.value max_ℚ x y }
    ensures absolute { (x : Q) → IsExactAt Q.value abs_ℚ x }
    ensures powers { (x : Q) (k : ℕ) → IsExactAt Q.value (λ y. power_ℚ y k) x }
    ensures products_there { (x y : Q) → AtEnds Q.can_multiply x x y y ↔ Q.can_multiply x y }
    ensures quotients_there { (x y : Q) → AtEnds Q.can_divide x x y y ↔ Q.can_divide x y }
{}

/// Each end of an answer is the result at one of the ends of each operand.
pub fn ends_at_corners<Q: Divides>()
    ensures sums { (a b : Ends Q) → EndsAtCorners Q.value ◌+ℚ◌ a b }
    ensures differences { (a b : Ends Q) → EndsAtCorners Q.value ◌-ℚ◌ a b }
    ensures products { (a b : Ends Q) → EndsAtCorners Q.value ◌*ℚ◌ a b }
    ensures quotients { (a b : Ends Q) → IsApartFromZero (Q.value b.low) (Q.value b.high)
        → EndsAtCorners Q.value ◌/ℚ◌ a b }
    ensures lesser { (a b : Ends Q) → EndsAtCorners Q.value min_ℚ a b }
    ensures greater { (a b : Ends Q) → EndsAtCorners Q.value max_ℚ a b }
{}

/// An interval lies inside the union of some ranges exactly where it lies inside one part of their
/// union: inside one range, once ranges that meet or touch are joined.
pub fn inside_one_part<Q: Exact>()
    ensures { (a : Ends Q) (ranges : List (Q × Q)) (parts : List (Ends Q))
        → IsProper Q.value a → AreRising Q.value parts
        → ((x : ℚ) → IsIn Q.value parts x ↔ IsInOne Q.value ranges x)
        → ((x : ℚ) → Holds Q.value a x → IsInOne Q.value ranges x) ↔ IsInPart Q.value parts a }
{}
