//! What is wrong where a path leads.
ghost use Rattle.std.specs.Prelude.{◌≡◌};
ghost use Rattle.ato_elab.specs.Faults.{no_such, wrong, sort_is_param, sort_is_instance, fits, takes_pins, judged, text_judged};

use crate::finding_names::Sort;
use crate::finding_paths::Found;
use ato_base::{FaultKind, Span};

/// What is wrong, and where.
#[derive(Clone, Copy)]
pub(crate) struct Mark {
    /// The kind of the fault.
    pub(crate) kind: FaultKind,
    /// Where it stands.
    pub(crate) at: Span,
}

/// What a path is to lead to.
#[derive(Clone, Copy)]
pub(crate) enum Wanted {
    /// What can be connected: all but parameters.
    End,
    /// A parameter.
    Param,
    /// An instance.
    Instance,
}

/// There is no such member.
fn no_such(at: Span) -> Mark
    ensures { result ≡ no_such at }
{
    Mark {
        kind: FaultKind::NoSuchMember,
        at,
    }
}

/// Something else is wanted here.
pub(crate) fn wrong(at: Span) -> Mark
    ensures { result ≡ wrong at }
{
    Mark {
        kind: FaultKind::WrongKind,
        at,
    }
}

/// Whether a sort is that of parameters.
pub(crate) fn sort_is_param(sort: Sort) -> bool
    ensures { result ≡ sort_is_param sort }
{
    match sort {
        Sort::Param => true,
        Sort::Signal | Sort::Instance => false,
    }
}

/// Whether a sort is that of instances.
fn sort_is_instance(sort: Sort) -> bool
    ensures { result ≡ sort_is_instance sort }
{
    match sort {
        Sort::Instance => true,
        Sort::Signal | Sort::Param => false,
    }
}

/// Whether a member of a sort may stand where this is wanted.
fn fits(wanted: Wanted, sort: Sort) -> bool
    ensures { result ≡ fits wanted sort }
{
    match wanted {
        Wanted::End => !sort_is_param(sort),
        Wanted::Param => sort_is_param(sort),
        Wanted::Instance => sort_is_instance(sort),
    }
}

/// Whether a pin may stand where this is wanted.
fn takes_pins(wanted: Wanted) -> bool
    ensures { result ≡ takes_pins wanted }
{
    match wanted {
        Wanted::End => true,
        Wanted::Param | Wanted::Instance => false,
    }
}

/// What is wrong with what a path leads to, where this is wanted.
pub(crate) fn judged(wanted: Wanted, found: Found) -> Option<Mark>
    ensures { result ≡ judged wanted found }
{
    match found {
        Found::Lost(at) => Some(no_such(at)),
        Found::Free(_, name) => Some(no_such(name.at)),
        Found::Member(_, name, _, sort) => {
            if fits(wanted, sort) {
                None
            } else {
                Some(wrong(name.at))
            }
        }
        Found::Pin(name) => {
            if takes_pins(wanted) {
                None
            } else {
                Some(wrong(name.at))
            }
        }
    }
}

/// What is wrong with what a path leads to, where a name is wanted that is no member.
pub(crate) fn text_judged(found: Found) -> Option<Mark>
    ensures { result ≡ text_judged found }
{
    match found {
        Found::Lost(at) => Some(no_such(at)),
        Found::Free(_, _) => None,
        Found::Member(_, name, _, _) => Some(wrong(name.at)),
        Found::Pin(name) => Some(wrong(name.at)),
    }
}
