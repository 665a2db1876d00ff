//! Where the paths of occurrences lead.
ghost use Rattle.std.specs.Prelude.{◌≡◌};
ghost use Rattle.ato_elab.specs.Faults.{judged};
ghost use Rattle.ato_elab.specs.Ground.{type_of, has_label, pin_of, pin_in, ended_in, found_in};

use crate::faults::{Mark, Wanted, judged};
use crate::finding_names::Sort;
use crate::finding_paths::{Found, stepped};
use crate::late_ground::Ground;
use ato_ast::{Named, Path};
use ato_base::{Span, TokenKind};
use ato_instance_tree::{Node, source_text};

/// The type of the node of a number.
fn type_of(nodes: &[Node], number: u32) -> Option<u32>
    ensures { result ≡ type_of nodes.now number }
{
    match nodes.get(number as usize) {
        Some(node) => node.block,
        None => None,
    }
}

/// Whether the instance of a node has a pin whose label stands at a place.
#[tactic(auto, unfolding(crate::specs::Ground::has_label))]
fn has_label(ground: &Ground<'_>, number: u32, at: Span) -> bool
    ensures { result ≡ has_label ground.now number at }
{
    let block = type_of(ground.built.nodes.as_slice(), number);
    ground
        .pins
        .holds_maybe(block, source_text(ground.files, at))
}

/// What is found of a pin of a member.
fn pin_of(ground: &Ground<'_>, name: Named, number: u32, sort: Sort, at: Span) -> Found
    ensures { result ≡ pin_of ground.now name number sort at }
{
    match sort {
        Sort::Instance => {
            if has_label(ground, number, at) {
                Found::Pin(name)
            } else {
                Found::Lost(at)
            }
        }
        Sort::Signal | Sort::Param => Found::Lost(at),
    }
}

/// What is found of the pin whose label stands at a place, at the end of a path.
fn pin_in(ground: &Ground<'_>, at: Span, found: Found) -> Found
    ensures { result ≡ pin_in ground.now at found }
{
    match found {
        Found::Member(_, name, number, sort) => pin_of(ground, name, number, sort, at),
        Found::Pin(_) => Found::Lost(at),
        Found::Free(_, name) => Found::Lost(name.at),
        Found::Lost(other) => Found::Lost(other),
    }
}

/// What is found at the end of a path, which may be the number of a pin.
fn ended_in(ground: &Ground<'_>, whole: Span, pin: Option<TokenKind>, found: Found) -> Found
    ensures { result ≡ ended_in ground.now whole pin found }
{
    match pin {
        None => found,
        Some(TokenKind::Number { at, .. }) => pin_in(ground, at, found),
        Some(_) => Found::Lost(whole),
    }
}

/// What stands behind a path of a statement of an instance.
#[tactic(auto, unfolding(crate::specs::Ground::found_in))]
pub(crate) fn found_in(ground: &Ground<'_>, instance: u32, path: &Path) -> Found
    ensures { result ≡ found_in ground.now instance path.now }
{
    let found = stepped(ground.built, instance, path.at, path.steps.as_slice());
    ended_in(ground, path.at, path.pin, found)
}

/// What is wrong with a path of a statement of an instance, where this is wanted.
pub(crate) fn path_mark(
    ground: &Ground<'_>,
    wanted: Wanted,
    instance: u32,
    path: &Path,
) -> Option<Mark>
    ensures { result ≡ judged wanted (found_in ground.now instance path.now) }
{
    judged(wanted, found_in(ground, instance, path))
}
