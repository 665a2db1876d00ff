ghost use Rattle.std.specs.Prelude.{◌≡◌};
ghost use Rattle.ato_ast.specs.Places.{head_at};

use crate::{Named, Quoted, Stmt};
use ato_base::{List, Span};

/// What stands on a line, with semicolons between.
#[derive(Debug, Drop)]
pub struct Line<S> {
    /// The heads or statements, at least one.
    pub parts: List<S>,
    /// Whether a semicolon stands at the end.
    pub tail: bool,
}

/// A head: what may stand on a line outside the blocks.
#[derive(Debug, Drop)]
pub enum Head {
    /// `import NAME from STRING`: a block of the file of this name.
    ImportFrom(Named, Quoted, Span),
    /// `import NAME, ..`: blocks of the library. There is at least one.
    Import(List<Named>, Span),
    /// `from STRING import NAME, ..`: blocks of the file of this name. There is at least one.
    From(Quoted, List<Named>, Span),
    /// A string alone, which is documentation.
    Docs(Quoted),
    /// `pass`.
    Pass(Span),
}

impl Head {
    /// Where the head stands.
    pub fn at(&self) -> Span
        ensures { result ≡ head_at self.now }
    {
        match self {
            Head::ImportFrom(_, _, at) => *at,
            Head::Import(_, at) => *at,
            Head::From(_, _, at) => *at,
            Head::Docs(text) => text.at,
            Head::Pass(at) => *at,
        }
    }
}

/// What kind of block.
#[derive(Clone, Copy, Debug, PartialEq, Eq)]
pub enum BlockKind {
    /// `module`
    Module,
    /// `component`
    Component,
    /// `interface`
    Interface,
}

/// A block with its statements.
#[derive(Drop)]
pub struct Block {
    /// Which keyword it begins with.
    pub kind: BlockKind,
    /// Its name.
    pub name: Named,
    /// The name behind `from`.
    pub parent: Option<Named>,
    /// Whether its one line stands behind the colon.
    pub inline: bool,
    /// Its lines, at least one; just one where it is inline.
    pub lines: List<Line<Stmt>>,
}

/// An item of a file.
#[derive(Drop)]
pub enum Item {
    /// A line of heads.
    Heads(Line<Head>),
    /// A block.
    Block(Block),
}

/// A source file.
#[derive(Drop)]
pub struct File {
    /// Its items, in written order.
    pub items: List<Item>,
}
