//! Faults with the paths of the instances in which they stand.
ghost use Rattle.std.specs.Prelude.{◌≡◌, ◌∷◌, ◌++◌, [], OnOk, IfOk, option_to_list, reverse};
ghost use Rattle.ato_base.specs.declared.places.Place.TheVariants as place;
ghost use Rattle.ato_instance_tree.specs.TreeFaults.{fault_in, shown};
ghost use Rattle.ato_elab.specs.Building.{Refuses, path_of};

use crate::frames::Frame;
use ato_base::{Fault, FaultKind, List, Name, NoMemory, Place, Refusal, Span};
use std::alloc::Global;

/// Puts a name, if there is one, behind others.
fn push_name(names: &mut List<Name>, name: Option<Name>) -> Result<(), NoMemory>
    ensures { OnOk result (names.new ≡ names.old ++ option_to_list name) }
{
    match name {
        Some(name) => names.push(name),
        None => Ok(()),
    }
}

/// The names from the root to the innermost of open instances.
fn path(alloc: Global, open: &[Frame<'_>]) -> Result<List<Name>, NoMemory>
    ensures { IfOk result (λ names. names ≡ shown (path_of (reverse open.now))) }
{
    let mut names = List::new(alloc);
    for frame in open {
        push_name(&mut names, frame.name)?;
    }
    Ok(names)
}

/// The names from the root to a member of an instance in open ones.
fn path_to(
    alloc: Global,
    open: &[Frame<'_>],
    frame: &Frame<'_>,
    name: Name,
) -> Result<List<Name>, NoMemory>
    ensures { IfOk result (λ names. names ≡ shown (name.0 ∷ path_of (frame.now ∷ reverse open.now))) }
{
    let mut names = path(alloc, open)?;
    push_name(&mut names, frame.name)?;
    names.push(name)?;
    Ok(names)
}

/// A fault in a member of an instance, which stands in open ones.
pub(crate) fn fault(
    alloc: Global,
    open: &[Frame<'_>],
    frame: &Frame<'_>,
    name: Name,
    kind: FaultKind,
    at: Span,
) -> Refusal
    ensures { Refuses result (fault_in (name.0 ∷ path_of (frame.now ∷ reverse open.now)) kind (place.Source at)) }
{
    match path_to(alloc, open, frame, name) {
        Ok(path) => Refusal::Fault(Fault {
            kind,
            at: Place::Source(at),
            other: None,
            path,
        }),
        Err(_) => Refusal::NoMemory,
    }
}
