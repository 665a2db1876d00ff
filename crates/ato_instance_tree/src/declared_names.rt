//! The names that statements declare.
ghost use Rattle.std.specs.Prelude.{◌≡◌, ◌||◌, ◌∷◌, [], ℕ, map, OnOk, IfOk};
ghost use Rattle.ato_files.specs.Members.{end_points};
ghost use Rattle.ato_instance_tree.specs.Kept.{stmt_of};
ghost use Rattle.ato_instance_tree.specs.Members.{is_declared};
ghost use Rattle.ato_instance_tree.specs.Seen.{has, AreDeclared, points_declare};

use crate::StmtAt;
use crate::number_set::NumberSet;
use ato_ast::{End, Point, Stmt};
use ato_base::NoMemory;
use std::alloc::Global;

/// Notes the name of a point.
fn note_point(names: &mut NumberSet, point: &Point) -> Result<(), NoMemory>
    ensures { OnOk result ((n : ℕ) → has names.new n ≡ (has names.old n || points_declare n (point.now ∷ []))) }
{
    if let Point::Signal(name, _) = point {
        names.insert(name.name.0)?;
    }
    Ok(())
}

/// Notes the name of a point at the end of a connection.
fn note_end(names: &mut NumberSet, end: &End) -> Result<(), NoMemory>
    ensures { OnOk result ((n : ℕ) → has names.new n ≡ (has names.old n || points_declare n (end_points end.now))) }
{
    match end {
        End::Point(point) => note_point(names, point),
        End::Path(_) => Ok(()),
    }
}

/// Notes the names that a statement declares.
fn note_stmt(names: &mut NumberSet, stmt: &Stmt) -> Result<(), NoMemory>
    ensures { OnOk result ((n : ℕ) → has names.new n ≡ (has names.old n || is_declared (stmt.now ∷ []) n)) }
{
    match stmt {
        Stmt::Point(point, None, _) => note_point(names, point),
        Stmt::Point(point, Some(end), _) => {
            note_point(names, point)?;
            note_end(names, end)
        }
        Stmt::Connect(_, end, _) => note_end(names, end),
        Stmt::Make(name, _, _) | Stmt::Declare(name, _, _, _) => {
            names.insert(name.name.0)?;
            Ok(())
        }
        Stmt::Pass(_)
        | Stmt::Docs(_)
        | Stmt::Replace(_, _, _)
        | Stmt::Assign(_, _, _)
        | Stmt::Assert(_, _, _) => Ok(()),
    }
}

/// The names that statements declare.
pub(crate) fn declared_names(
    alloc: Global,
    statements: &[StmtAt<'_>],
) -> Result<NumberSet, NoMemory>
    ensures { IfOk result (λ names. AreDeclared names (map stmt_of statements.now)) }
{
    let mut names = NumberSet::new(alloc);
    for statement in statements {
        note_stmt(&mut names, statement.stmt)?;
    }
    Ok(names)
}
