ghost use Rattle.std.specs.Prelude.{◌≡◌};
ghost use Rattle.ato_ast.specs.Places.{expr_at};

use crate::{Number, Path};
use ato_base::{Name, Span};
use sqlite_items::{Boxed, Items};

/// How an operand of a sum counts.
#[derive(Clone, Copy, Debug, PartialEq, Eq)]
pub enum Sign {
    /// `+`
    Plus,
    /// `-`
    Minus,
}

/// How an operand of a product counts.
#[derive(Clone, Copy, Debug, PartialEq, Eq)]
pub enum Scale {
    /// `*`
    Times,
    /// `/`
    Over,
}

/// The unit of a quantity, as it is written.
#[derive(Clone, Copy, Debug, PartialEq, Eq)]
pub enum Unit {
    /// A name.
    Name(Name),
    /// `%`
    Percent,
}

/// A quantity: a number that may have a sign and a unit.
#[derive(Clone, Copy, Debug, PartialEq, Eq)]
pub struct Part {
    /// Whether a minus sign stands before the number.
    pub minus: bool,
    /// The number.
    pub number: Number,
    /// Its unit.
    pub unit: Option<Unit>,
    /// The part from its sign to its unit.
    pub at: Span,
}

/// A literal, of one part or two.
#[derive(Clone, Copy, Debug, PartialEq, Eq)]
pub enum Literal {
    /// One quantity.
    One(Part),
    /// `FROM to TO`.
    To(Part, Part),
    /// `NOMINAL +/- TOLERANCE`; the tolerance has no sign.
    About(Part, Part),
}

/// A function of one operand or more.
#[derive(Clone, Copy, Debug, PartialEq, Eq)]
pub enum Choice {
    /// The least of the operands.
    Min,
    /// The greatest of the operands.
    Max,
}

/// An expression, with where it stands. The first operand stands apart from the others, so that no sum
/// and no product is empty.
#[derive(Drop)]
pub enum Expr {
    /// Two operands or more with signs between.
    Sum(Boxed<Expr>, Items<(Sign, Expr)>, Span),
    /// Two operands or more with `*` or `/` between.
    Product(Boxed<Expr>, Items<(Scale, Expr)>, Span),
    /// An operand with its exponent, a whole number from 1 to 16.
    Power(Boxed<Expr>, Number, Span),
    /// An expression in parentheses.
    Group(Boxed<Expr>, Span),
    /// `abs(OPERAND)`.
    Abs(Boxed<Expr>, Span),
    /// `min(OPERAND, ..)` or `max(OPERAND, ..)`.
    Choice(Choice, Boxed<Expr>, Items<Expr>, Span),
    /// A path.
    Path(Path),
    /// A literal.
    Literal(Literal, Span),
}

impl Expr {
    /// Where the expression stands.
    #[tactic(auto, unfolding(crate::specs::Places::expr_at))]
    pub fn at(&self) -> Span
        ensures { result ≡ expr_at self.now }
    {
        match self {
            Expr::Sum(_, _, at) => *at,
            Expr::Product(_, _, at) => *at,
            Expr::Power(_, _, at) => *at,
            Expr::Group(_, at) => *at,
            Expr::Abs(_, at) => *at,
            Expr::Choice(_, _, _, at) => *at,
            Expr::Path(path) => path.at,
            Expr::Literal(_, at) => *at,
        }
    }
}
