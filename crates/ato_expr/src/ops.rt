//! The operations of expressions, and what can be said of them.
ghost use Rattle.std.specs.Prelude.{◌≡◌, ◌+◌, ◌<◌, ◌≤◌, ◌↔◌, ℕ, IsTrue};
ghost use Rattle.ato_expr.specs.Tables.{Fits};
ghost use Rattle.ato_expr.specs.declared.ops.Op.TheVariants.{Var};

use ato_base::List;
use ato_frac::Frac;

/// An operation of an expression.
#[derive(Clone, Copy, Debug, PartialEq, Eq)]
pub enum Op {
    /// The variable of a number. It has no children.
    Var(u32),
    /// A constant. It has no children.
    Const(Frac),
    /// The sum of one child or more, from left to right.
    Sum,
    /// The opposite of its one child.
    Neg,
    /// The product of its two children.
    Product,
    /// The first of its two children over the second.
    Quotient,
    /// The power of its one child, with an exponent from 1 to 16.
    Power(u32),
    /// The least of one child or more.
    Min,
    /// The greatest of one child or more.
    Max,
    /// The absolute value of its one child.
    Abs,
}

impl Op {
    /// Whether so many children fit the operation, and the exponent of a power is from 1 to 16.
    pub fn fits(&self, count: usize) -> bool
        ensures { IsTrue result ↔ Fits self.now count }
    {
        match self {
            Op::Var(_) | Op::Const(_) => count == 0,
            Op::Sum | Op::Min | Op::Max => 1 <= count,
            Op::Neg | Op::Abs => count == 1,
            Op::Product | Op::Quotient => count == 2,
            Op::Power(exponent) => 1 <= *exponent && *exponent <= 16 && count == 1,
        }
    }

    /// The least number above so many and that of the variable, if it is one.
    pub(crate) fn past(&self, so_far: usize) -> usize
        ensures more { so_far ≤ result }
        ensures variable { (v : ℕ) → self.now ≡ Var v → v < result }
        ensures least { (n : ℕ) → so_far ≤ n → ((v : ℕ) → self.now ≡ Var v → v < n) → result ≤ n }
    {
        match self {
            Op::Var(variable) => so_far.max(*variable as usize + 1),
            _ => so_far,
        }
    }
}

/// What can be said of nodes of a table.
#[derive(Debug, Drop)]
pub enum Relation {
    /// The node lies in one of the ranges, each from a low end to a high end.
    Within(u32, List<(Frac, Frac)>),
    /// The first node is less than the second.
    Less(u32, u32),
    /// The first node is less than the second, or equal to it.
    LessEq(u32, u32),
    /// The two nodes are equal.
    Equal(u32, u32),
    /// The node has a value.
    Defined(u32),
}
