//! What the statements of a block name: types, declarations and pins.
ghost use Rattle.std.specs.Prelude.{◌≡◌, [], ◌∷◌, OnOk, IfOk};
ghost use Rattle.ato_files.specs.Members.{end_points};
ghost use Rattle.ato_files.specs.MemberLists.{members_in, no_members, with_made, with_points, with_stmts};

use ato_ast::{Block, End, Label, Named, Point, Stmt};
use ato_base::{List, NoMemory};
use std::alloc::Global;

/// What a name is declared as.
#[derive(Clone, Copy, Debug, PartialEq, Eq)]
pub(crate) enum Sort {
    /// A signal.
    Signal,
    /// An instance.
    Instance,
    /// A parameter.
    Param,
}

/// A declaration of a name.
#[derive(Clone, Copy, Debug, PartialEq, Eq)]
pub(crate) struct Declared {
    /// The name.
    pub(crate) name: Named,
    /// What it is declared as.
    pub(crate) sort: Sort,
}

/// What the statements of a block name, each in written order.
#[derive(Debug, Drop)]
pub(crate) struct Members {
    /// The names of types, after `new` and `->`.
    pub(crate) types: List<Named>,
    /// Those after `new`.
    pub(crate) made: List<Named>,
    /// The declarations.
    pub(crate) decls: List<Declared>,
    /// The labels of pins.
    pub(crate) pins: List<Label>,
}

impl Members {
    /// Those of no statement.
    fn new(alloc: Global) -> Members
        ensures { result ≡ no_members }
    {
        Members {
            types: List::new(alloc),
            made: List::new(alloc),
            decls: List::new(alloc),
            pins: List::new(alloc),
        }
    }

    /// Puts what a point declares behind the others.
    fn push_point(&mut self, point: &Point) -> Result<(), NoMemory>
        ensures { OnOk result (self.new ≡ with_points self.old (point.now ∷ [])) }
    {
        match point {
            Point::Signal(name, _) => self.decls.push(Declared {
                name: *name,
                sort: Sort::Signal,
            }),
            Point::Pin(label, _) => self.pins.push(*label),
        }
    }

    /// Puts what the end of a connection declares behind the others.
    fn push_end(&mut self, end: &End) -> Result<(), NoMemory>
        ensures { OnOk result (self.new ≡ with_points self.old (end_points end.now)) }
    {
        match end {
            End::Point(point) => self.push_point(point),
            End::Path(_) => Ok(()),
        }
    }

    /// Puts an instance and its type behind the others.
    fn push_made(&mut self, name: &Named, of: &Named) -> Result<(), NoMemory>
        ensures { OnOk result (self.new ≡ with_made self.old name.now of.now) }
    {
        self.types.push(*of)?;
        self.made.push(*of)?;
        self.decls.push(Declared {
            name: *name,
            sort: Sort::Instance,
        })
    }

    /// Puts what a statement names behind the others.
    fn push_stmt(&mut self, stmt: &Stmt) -> Result<(), NoMemory>
        ensures { OnOk result (self.new ≡ with_stmts self.old (stmt.now ∷ [])) }
    {
        match stmt {
            Stmt::Point(point, None, _) => self.push_point(point),
            Stmt::Point(point, Some(end), _) => {
                self.push_point(point)?;
                self.push_end(end)
            }
            Stmt::Connect(_, end, _) => self.push_end(end),
            Stmt::Replace(_, of, _) => self.types.push(*of),
            Stmt::Make(name, of, _) => self.push_made(name, of),
            Stmt::Declare(name, _, _, _) => self.decls.push(Declared {
                name: *name,
                sort: Sort::Param,
            }),
            Stmt::Pass(_) | Stmt::Docs(_) | Stmt::Assign(_, _, _) | Stmt::Assert(_, _, _) => Ok(()),
        }
    }

    /// Puts what statements name behind the others.
    fn push_stmts(&mut self, stmts: &[Stmt]) -> Result<(), NoMemory>
        ensures { OnOk result (self.new ≡ with_stmts self.old stmts.now) }
    {
        for stmt in stmts {
            self.push_stmt(stmt)?;
        }
        Ok(())
    }
}

/// What the statements of a block name.
pub(crate) fn members_of(alloc: Global, block: &Block) -> Result<Members, NoMemory>
    ensures { IfOk result (λ members. members ≡ members_in block.now) }
{
    let mut members = Members::new(alloc);
    for line in block.lines.as_slice() {
        members.push_stmts(line.parts.as_slice())?;
    }
    Ok(members)
}
