//! What statements join.
ghost use Rattle.std.specs.Prelude.{◌≡◌, ◌↔◌, ◌⊎◌, option_to_list, OnOk};
ghost use Rattle.ato_files.specs.Lists.{Among};
ghost use Rattle.ato_links.specs.LinkFaults.{left_end, point_front};
ghost use Rattle.ato_connections.specs.Given.{IsGiven, library_in};
ghost use Rattle.ato_connections.specs.Linking.{Has};
ghost use Rattle.ato_connections.specs.NodeLinks.{NodeLink, point_links, stmt_links};

use crate::ends::{end_side, path_side, point_side};
use crate::given::Given;
use crate::links::Links;
use ato_ast::{End, Point, Stmt};
use ato_base::{NoMemory, Span};
use ato_instance_tree::{front_of, path_front};

/// The keyword of a point.
fn point_front(point: &Point) -> Span
    ensures { result ≡ point_front point.now }
{
    match point {
        Point::Signal(_, at) => front_of(6, *at),
        Point::Pin(_, at) => front_of(3, *at),
    }
}

/// The first token of the left end of a connection.
pub(crate) fn left_end(stmt: &Stmt) -> Option<Span>
    ensures { option_to_list result ≡ left_end stmt.now }
{
    match stmt {
        Stmt::Point(point, _, _) => Some(point_front(point)),
        Stmt::Connect(path, _, _) => Some(path_front(path)),
        _ => None,
    }
}

/// Joins a point that is declared in an instance with the end behind it, if there is one.
fn join_point(
    links: &mut Links,
    given: &Given<'_, '_>,
    instance: u32,
    point: &Point,
    end: &Option<End>,
) -> Result<(), NoMemory>
    ensures { OnOk result (IsGiven given.now → (link : NodeLink) → Has links.new link ↔ (Has links.old link
        ⊎ Among link (point_links given.now.program.now.files given.now.program.now.names given.now.nodes.now (library_in given.now)
        instance point.now end.now))) }
{
    match end {
        Some(end) => links.join_ends(
            given,
            point_side(given, instance, point),
            end_side(given, instance, end),
        ),
        None => Ok(()),
    }
}

/// Joins what a statement of an instance connects.
pub(crate) fn join_stmt(
    links: &mut Links,
    given: &Given<'_, '_>,
    instance: u32,
    stmt: &Stmt,
) -> Result<(), NoMemory>
    ensures { OnOk result (IsGiven given.now → (link : NodeLink) → Has links.new link ↔ (Has links.old link
        ⊎ Among link (stmt_links given.now.program.now.files given.now.program.now.names given.now.nodes.now (library_in given.now) instance stmt.now))) }
{
    match stmt {
        Stmt::Point(point, end, _) => join_point(links, given, instance, point, end),
        Stmt::Connect(path, end, _) => links.join_ends(
            given,
            path_side(given, instance, path),
            end_side(given, instance, end),
        ),
        _ => Ok(()),
    }
}
