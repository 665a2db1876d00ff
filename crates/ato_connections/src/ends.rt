//! The sides at the ends of connections.
ghost use Rattle.std.specs.Prelude.{◌≡◌, Some};
ghost use Rattle.std.specs.Option.{option_and_then};
ghost use Rattle.ato_instance_tree.specs.Members.{label_place};
ghost use Rattle.ato_instance_tree.specs.Targets.{led, led_from, named_child, pinned};
ghost use Rattle.ato_connections.specs.NodeLinks.{as_point, beside, end_side, is_electrical, line_side, path_side, point_at, point_side, type_of};
ghost use Rattle.ato_connections.specs.Given.{IsGiven, library_in};

use crate::given::Given;
use crate::sides::{Side, at_end, point_at, reached};
use ato_ast::{End, Label, Named, Path, Point};
use ato_base::{Name, Span, TokenKind};
use ato_elab::descends;
use ato_instance_tree::source_text;

/// The node of a name of an instance.
fn named_child(given: &Given<'_, '_>, instance: u32, name: Name) -> Option<u32>
    ensures { IsGiven given.now → result ≡ named_child given.now.program.now.names given.now.nodes.now instance name.0 }
{
    match given.program.names.text(name) {
        Some(text) => given.members.named(instance, text.as_bytes()),
        None => None,
    }
}

/// The node to which names lead from an instance.
fn led(given: &Given<'_, '_>, instance: u32, steps: &[Named]) -> Option<u32>
    ensures { IsGiven given.now → result ≡ led given.now.program.now.names given.now.nodes.now steps.now instance }
{
    let mut at = instance;
    for step in steps {
        at = named_child(given, at, step.name)?;
    }
    Some(at)
}

/// The same of a path with a name; one without leads nowhere.
fn led_from(given: &Given<'_, '_>, instance: u32, steps: &[Named]) -> Option<u32>
    ensures { IsGiven given.now → result ≡ led_from given.now.program.now.names given.now.nodes.now steps.now instance }
{
    match steps {
        [] => None,
        [_, ..] => led(given, instance, steps),
    }
}

/// A node, or its pin where a path ends in a number.
fn pinned(given: &Given<'_, '_>, pin: Option<TokenKind>, at: u32) -> Option<u32>
    ensures { IsGiven given.now → result ≡ pinned given.now.program.now.files given.now.nodes.now pin at }
{
    match pin {
        None => Some(at),
        Some(TokenKind::Number { at: place, .. }) => {
            given
                .members
                .pin(at, source_text(given.program.files.as_slice(), place))
        }
        Some(_) => None,
    }
}

/// The node to which a path leads from an instance.
fn target(given: &Given<'_, '_>, instance: u32, path: &Path) -> Option<u32>
    ensures { IsGiven given.now → result ≡ option_and_then (pinned given.now.program.now.files given.now.nodes.now path.now.pin)
        (led_from given.now.program.now.names given.now.nodes.now path.now.steps instance) }
{
    let at = led_from(given, instance, path.steps.as_slice())?;
    pinned(given, path.pin, at)
}

/// The side at the end of a path of a statement of an instance.
pub(crate) fn path_side(given: &Given<'_, '_>, instance: u32, path: &Path) -> Side
    ensures { IsGiven given.now → result ≡ path_side given.now.program.now.files given.now.program.now.names given.now.nodes.now instance path.now }
{
    at_end(reached(given.nodes, target(given, instance, path)))
}

/// Where the text of a label stands: a name, digits, or what is between quotes.
fn label_place(label: &Label) -> Span
    ensures { result ≡ label_place label.now }
{
    match label {
        Label::Name(name) => name.at,
        Label::Number(_, at) => *at,
        Label::Text(text) => text.contents,
    }
}

/// The node of a point that is declared in an instance.
fn declared(given: &Given<'_, '_>, instance: u32, point: &Point) -> Option<u32>
    ensures { IsGiven given.now → point_at result ≡ point_side given.now.program.now.files given.now.program.now.names given.now.nodes.now
        instance point.now }
{
    match point {
        Point::Signal(name, _) => named_child(given, instance, name.name),
        Point::Pin(label, _) => {
            let files = given.program.files.as_slice();
            given
                .members
                .pin(instance, source_text(files, label_place(label)))
        }
    }
}

/// The side of a point that is declared in an instance.
pub(crate) fn point_side(given: &Given<'_, '_>, instance: u32, point: &Point) -> Side
    ensures { IsGiven given.now → result ≡ point_side given.now.program.now.files given.now.program.now.names given.now.nodes.now instance point.now }
{
    point_at(declared(given, instance, point))
}

/// The side at the end of a connection in an instance.
pub(crate) fn end_side(given: &Given<'_, '_>, instance: u32, end: &End) -> Side
    ensures { IsGiven given.now → result ≡ end_side given.now.program.now.files given.now.program.now.names given.now.nodes.now instance end.now }
{
    match end {
        End::Point(point) => point_side(given, instance, point),
        End::Path(path) => path_side(given, instance, path),
    }
}

/// The type of the node of a number.
fn type_at(given: &Given<'_, '_>, number: u32) -> Option<u32>
    ensures { result ≡ type_of given.now.nodes.now number }
{
    given.nodes.get(number as usize)?.block
}

/// Whether the lineage of an instance's type holds the library's `Electrical`.
fn is_electrical(given: &Given<'_, '_>, number: u32) -> bool
    ensures { IsGiven given.now → result ≡ is_electrical given.now.program.now.files given.now.nodes.now (library_in given.now) number }
{
    match (type_at(given, number), given.library.electrical) {
        (Some(block), Some(electrical)) => descends(given.program, block, electrical),
        _ => false,
    }
}

/// The side of the signal that stands for an instance.
fn line_side(given: &Given<'_, '_>, number: u32) -> Side
    ensures { IsGiven given.now → result ≡ line_side given.now.program.now.names given.now.nodes.now number (library_in given.now).line }
{
    match given.library.line {
        Some(line) => reached(given.nodes, named_child(given, number, line)),
        None => Side::Nothing,
    }
}

/// A side beside a point: an instance may stand for its signal.
fn as_point(given: &Given<'_, '_>, side: Side) -> Side
    ensures { IsGiven given.now → result ≡ as_point given.now.program.now.files given.now.program.now.names given.now.nodes.now (library_in given.now) side }
{
    match side {
        Side::Inside(number) => {
            if is_electrical(given, number) {
                line_side(given, number)
            } else {
                side
            }
        }
        Side::Point(_) | Side::Quantity(_) | Side::Nothing => side,
    }
}

/// What a side is where the other side is this one.
pub(crate) fn beside(given: &Given<'_, '_>, other: Side, side: Side) -> Side
    ensures { IsGiven given.now → result ≡ beside given.now.program.now.files given.now.program.now.names given.now.nodes.now
        (library_in given.now) other side }
{
    match other {
        Side::Point(_) => as_point(given, side),
        Side::Quantity(_) | Side::Inside(_) | Side::Nothing => side,
    }
}
