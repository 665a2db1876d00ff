//! Members, listed where they are declared first.
ghost use Rattle.std.specs.Prelude.{◌≡◌, ◌++◌, ◌∷◌, [], ℕ, List, map, OnOk, option_to_list};
ghost use Rattle.std.specs.List.{flat_map};
ghost use Rattle.ato_ast.specs.declared.stmts.Stmt.{Stmt};
ghost use Rattle.ato_files.specs.Members.{end_points, is_quantity, lone_of};
ghost use Rattle.ato_instance_tree.specs.Kept.{kind_of, stmt_of};
ghost use Rattle.ato_instance_tree.specs.Members as members;
ghost use Rattle.ato_instance_tree.specs.Members.{pin, named, label_place, label_text, point_members, stmt_members};
ghost use Rattle.ato_instance_tree.specs.Seen.{AreDeclared, IsListed, unlisted};

use crate::label_set::LabelSet;
use crate::number_set::NumberSet;
use crate::texts::source_text;
use crate::type_members::{Kind, Member};
use crate::type_stmts::StmtAt;
use ato_ast::{End, Label, Named, Path, Point, Stmt, Value};
use ato_base::{List, NoMemory, Span};
use ato_files::SourceFile;
use std::alloc::Global;

/// Members, each where it was met first, and what was met.
#[derive(Drop)]
pub(crate) struct Listing<'a> {
    /// The names of members.
    names: NumberSet,
    /// The labels of pins.
    labels: LabelSet<'a>,
    /// The members.
    pub(crate) found: List<Member<'a>>,
}

/// Where the text of a label stands: a name, digits, or what is between quotes.
fn label_place(label: &Label) -> Span
    ensures { result ≡ label_place label.now }
{
    match label {
        Label::Name(name) => name.at,
        Label::Number(_, at) => *at,
        Label::Text(text) => text.contents,
    }
}

/// The name of a path of one name.
fn lone(path: &Path) -> Option<Named>
    ensures { option_to_list result ≡ lone_of path.now.steps path.now.pin }
{
    if path.pin.is_some() {
        return None;
    }
    match path.steps.as_slice() {
        [name] => Some(*name),
        _ => None,
    }
}

impl<'a> Listing<'a> {
    /// No members.
    pub(crate) fn new(alloc: Global) -> Listing<'a>
        ensures { IsListed [] result }
    {
        Listing {
            names: NumberSet::new(alloc),
            labels: LabelSet::new(alloc),
            found: List::new(alloc),
        }
    }

    /// Lists a name, if it is new.
    fn push_name(&mut self, name: Named, kind: Kind) -> Result<(), NoMemory>
        ensures { OnOk result ((ms : List members.Member) → IsListed ms self.old → IsListed (ms ++ named name (kind_of kind) ∷ []) self.new) }
    {
        let is_new = self.names.insert(name.name.0)?;
        if is_new {
            self.found.push(Member::Named(name, kind))?;
        }
        Ok(())
    }

    /// Lists a pin, if its label is new.
    fn push_pin(&mut self, text: &'a [u8]) -> Result<(), NoMemory>
        ensures { OnOk result ((ms : List members.Member) → IsListed ms self.old → IsListed (ms ++ pin text.now ∷ []) self.new) }
    {
        let is_new = self.labels.insert(text)?;
        if is_new {
            self.found.push(Member::Pin(text))?;
        }
        Ok(())
    }

    /// Lists a point.
    fn push_point(&mut self, files: &'a [SourceFile], point: &Point) -> Result<(), NoMemory>
        ensures { OnOk result ((ms : List members.Member) → IsListed ms self.old → IsListed (ms ++ point_members files.now point.now) self.new) }
    {
        match point {
            Point::Signal(name, _) => self.push_name(*name, Kind::Signal),
            Point::Pin(label, _) => self.push_pin(source_text(files, label_place(label))),
        }
    }

    /// Lists the end of a connection, if it is a point.
    fn push_end(&mut self, files: &'a [SourceFile], end: &End) -> Result<(), NoMemory>
        ensures { OnOk result ((ms : List members.Member) → IsListed ms self.old → IsListed (ms ++ flat_map (point_members files.now) (end_points end.now)) self.new) }
    {
        match end {
            End::Point(point) => self.push_point(files, point),
            End::Path(_) => Ok(()),
        }
    }

    /// Lists the name to which a quantity is assigned, if no statement declares it.
    fn push_assigned(
        &mut self,
        declared: &NumberSet,
        path: &Path,
        value: &Value,
    ) -> Result<(), NoMemory>
        ensures { OnOk result ((all : List Stmt) → AreDeclared declared.now all → (ms : List members.Member) → IsListed ms self.old → IsListed (ms ++ unlisted all path.now value.now) self.new) }
    {
        let Value::Expr(_) = value else {
            return Ok(());
        };
        match lone(path) {
            Some(name) => {
                if declared.contains(name.name.0) {
                    return Ok(());
                }
                self.push_name(name, Kind::Param)
            }
            None => Ok(()),
        }
    }

    /// Lists what a statement declares.
    fn push_stmt(
        &mut self,
        files: &'a [SourceFile],
        declared: &NumberSet,
        stmt: &Stmt,
    ) -> Result<(), NoMemory>
        ensures { OnOk result ((all : List Stmt) → AreDeclared declared.now all → (ms : List members.Member) → IsListed ms self.old → IsListed (ms ++ stmt_members files.now all stmt.now) self.new) }
    {
        match stmt {
            Stmt::Point(point, None, _) => self.push_point(files, point),
            Stmt::Point(point, Some(end), _) => {
                self.push_point(files, point)?;
                self.push_end(files, end)
            }
            Stmt::Connect(_, end, _) => self.push_end(files, end),
            Stmt::Make(name, of, _) => self.push_name(*name, Kind::Instance(*of)),
            Stmt::Declare(name, _, _, _) => self.push_name(*name, Kind::Param),
            Stmt::Assign(path, value, _) => self.push_assigned(declared, path, value),
            Stmt::Pass(_) | Stmt::Docs(_) | Stmt::Replace(_, _, _) | Stmt::Assert(_, _, _) => Ok(
                (),
            ),
        }
    }

    /// Lists what statements declare.
    pub(crate) fn push_stmts(
        &mut self,
        files: &'a [SourceFile],
        declared: &NumberSet,
        statements: &[StmtAt<'a>],
    ) -> Result<(), NoMemory>
        ensures { OnOk result ((all : List Stmt) → AreDeclared declared.now all → (ms : List members.Member) → IsListed ms self.old → IsListed (ms ++ flat_map (stmt_members files.now all) (map stmt_of statements.now)) self.new) }
    {
        for statement in statements {
            self.push_stmt(files, declared, statement.stmt)?;
        }
        Ok(())
    }
}
