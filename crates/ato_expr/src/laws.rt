//! Laws on the values of nodes, and on what they come to, as contracts.
ghost use Rattle.std.specs.Prelude.{◌≡◌, ℕ, List, [], ◌∷◌};
ghost use Rattle.ato_rational.specs.Rational.{ℚ};
ghost use Rattle.ato_frac.specs.declared.fraction.Frac.{Frac};
ghost use Rattle.ato_expr.specs.declared.ops.Relation.{Relation};
ghost use Rattle.ato_expr.specs.declared.point.Point.{Point};
ghost use Rattle.ato_expr.specs.AtPoint.{ComesTo, IsRight, IsWorld};
ghost use Rattle.ato_expr.specs.Tables.{Entry, IsBelow};
ghost use Rattle.ato_expr.specs.Values.{HasValue, HoldsAt, roots_of};

/// A node has one value at a point at most.
pub fn one_value()
    ensures { (table : List Entry) (point : ℕ → ℚ) (node : ℕ) (x y : ℚ) → HasValue table point node x → HasValue table point node y → x ≡ y }
{}

/// Where a node has a value, so has each node below it.
pub fn values_all_the_way_down()
    ensures { (table : List Entry) (point : ℕ → ℚ) (node : ℕ) (x : ℚ) → HasValue table point node x → (k : ℕ) → IsBelow table (node ∷ []) k → (y : ℚ) × HasValue table point k y }
{}

/// Where a relation holds, each node below those that it speaks of has a value.
pub fn holds_with_values()
    ensures { (table : List Entry) (point : ℕ → ℚ) (relation : Relation) → HoldsAt table point relation → (k : ℕ) → IsBelow table (roots_of relation) k → (y : ℚ) × HasValue table point k y }
{}

/// A node comes to one thing at most.
pub fn one_point()
    ensures { (table : List Entry) (world : List Frac) (node : ℕ) (p q : Point) → ComesTo table world node p → ComesTo table world node q → p ≡ q }
{}

/// What a node comes to is its value, and where it is undefined it has none.
pub fn points_are_right()
    ensures { (table : List Entry) (world : List Frac) (point : ℕ → ℚ) (node : ℕ) (p : Point) → IsWorld world point → ComesTo table world node p → IsRight table point node p }
{}
