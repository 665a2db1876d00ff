ghost use Rattle.std.specs.Prelude.{◌≡◌};
ghost use Rattle.ato_ast.specs.Places.{end_at, stmt_at, value_at};

use crate::{Expr, Literal, Named, Path, Point, Quoted};
use ato_base::{List, Span};

/// An end of a connection.
#[derive(Debug, Drop)]
pub enum End {
    /// A point that is declared there.
    Point(Point),
    /// A path.
    Path(Path),
}

impl End {
    /// Where the end stands.
    pub fn at(&self) -> Span
        ensures { result ≡ end_at self.now }
    {
        match self {
            End::Point(point) => point.at(),
            End::Path(path) => path.at,
        }
    }
}

/// What is assigned.
#[derive(Drop)]
pub enum Value {
    /// A string.
    Text(Quoted),
    /// `True` or `False`.
    Truth(bool, Span),
    /// An expression.
    Expr(Expr),
}

impl Value {
    /// Where the value stands.
    pub fn at(&self) -> Span
        ensures { result ≡ value_at self.now }
    {
        match self {
            Value::Text(text) => text.at,
            Value::Truth(_, at) => *at,
            Value::Expr(expr) => expr.at(),
        }
    }
}

/// How two sides compare.
#[derive(Clone, Copy, Debug, PartialEq, Eq)]
pub enum Comparison {
    /// `<`
    Less,
    /// `<=`
    LessEqual,
    /// `>`
    Greater,
    /// `>=`
    GreaterEqual,
    /// `is`
    Is,
}

/// What is asserted of an expression.
#[derive(Drop)]
pub enum Compare {
    /// How it compares with another.
    Sides(Comparison, Expr),
    /// Its values lie within one of these literals, which have `|` between. There is at least one.
    Within(List<Literal>),
}

/// A statement, with where it stands.
#[derive(Drop)]
pub enum Stmt {
    /// `pass`.
    Pass(Span),
    /// A string alone, which is documentation.
    Docs(Quoted),
    /// `POINT` or `POINT ~ END`.
    Point(Point, Option<End>, Span),
    /// `PATH ~ END`.
    Connect(Path, End, Span),
    /// `PATH -> NAME`.
    Replace(Path, Named, Span),
    /// `PATH = VALUE`.
    Assign(Path, Value, Span),
    /// `NAME = new NAME`.
    Make(Named, Named, Span),
    /// `NAME: NAME` or `NAME: NAME = VALUE`.
    Declare(Named, Named, Option<Value>, Span),
    /// `assert EXPRESSION ..`.
    Assert(Expr, Compare, Span),
}

impl Stmt {
    /// Where the statement stands.
    pub fn at(&self) -> Span
        ensures { result ≡ stmt_at self.now }
    {
        match self {
            Stmt::Pass(at) => *at,
            Stmt::Docs(text) => text.at,
            Stmt::Point(_, _, at) => *at,
            Stmt::Connect(_, _, at) => *at,
            Stmt::Replace(_, _, at) => *at,
            Stmt::Assign(_, _, at) => *at,
            Stmt::Make(_, _, at) => *at,
            Stmt::Declare(_, _, _, at) => *at,
            Stmt::Assert(_, _, at) => *at,
        }
    }
}
