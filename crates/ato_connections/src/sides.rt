//! What a node is at a connection.
ghost use Rattle.std.specs.Prelude.{◌≡◌};
ghost use Rattle.ato_connections.specs.NodeLinks.{kind_side, reached, at_end, point_at};

use ato_instance_tree::{Node, NodeKind};

/// A side of a connection, at its end or reached from there, by the numbers of nodes.
#[derive(Clone, Copy)]
pub(crate) enum Side {
    /// A signal or a pin.
    Point(u32),
    /// A parameter.
    Quantity(u32),
    /// An instance.
    Inside(u32),
    /// Nothing that can be joined.
    Nothing,
}

/// What the node of a number is, by its kind.
fn kind_side(kind: NodeKind, number: u32) -> Side
    ensures { result ≡ kind_side kind number }
{
    match kind {
        NodeKind::Signal | NodeKind::Pin => Side::Point(number),
        NodeKind::Param => Side::Quantity(number),
        NodeKind::Module | NodeKind::Component | NodeKind::Interface => Side::Inside(number),
    }
}

/// What the node of a number is, if there is one.
pub(crate) fn reached(nodes: &[Node], number: Option<u32>) -> Side
    ensures { result ≡ reached nodes.now number }
{
    let Some(number) = number else {
        return Side::Nothing;
    };
    match nodes.get(number as usize) {
        Some(node) => kind_side(node.kind, number),
        None => Side::Nothing,
    }
}

/// The same at the end of a written path: a parameter is no end.
pub(crate) fn at_end(side: Side) -> Side
    ensures { result ≡ at_end side }
{
    match side {
        Side::Quantity(_) => Side::Nothing,
        Side::Point(_) | Side::Inside(_) | Side::Nothing => side,
    }
}

/// A point that is declared at an end.
pub(crate) fn point_at(number: Option<u32>) -> Side
    ensures { result ≡ point_at number }
{
    match number {
        Some(number) => Side::Point(number),
        None => Side::Nothing,
    }
}
