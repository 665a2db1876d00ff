//! Where paths lead from an instance.
ghost use Rattle.std.specs.Prelude.{◌≡◌, ℕ, Option, Some};
ghost use Rattle.ato_elab.specs.declared.finding_paths.Found.{Found};
ghost use Rattle.ato_elab.specs.declared.finding_paths.Found.TheVariants as found;
ghost use Rattle.ato_elab.specs.Finding.{named_in, ended_at, led_on, goes_on, steps_from, steps_in};

use crate::built::Built;
use crate::finding_names::{Sort, named};
use ato_ast::Named;
use ato_base::Span;

/// What stands at the end of a path.
#[derive(Clone, Copy)]
pub(crate) enum Found {
    /// Nothing: the path breaks off at this place.
    Lost(Span),
    /// In the instance of this number the name is no member.
    Free(u32, Named),
    /// In the instance of the first number the name is the member with the second number.
    Member(u32, Named, u32, Sort),
    /// A pin of the instance of this name.
    Pin(Named),
}

/// The instance to which a name leads on the way to the next one, or where the path breaks off.
fn onward(built: &Built, instance: u32, name: Named, next: Named) -> Result<u32, Span>
    ensures { (further : ℕ → Found) → led_on name next (named_in built.now instance name.name.0) further ≡ goes_on further result }
{
    match named(built, instance, name.name) {
        None => Err(name.at),
        Some((number, Sort::Instance)) => Ok(number),
        Some(_) => Err(next.at),
    }
}

/// What stands at a last name of an instance.
fn ended(built: &Built, instance: u32, name: Named) -> Found
    ensures { result ≡ ended_at instance name (named_in built.now instance name.name.0) }
{
    match named(built, instance, name.name) {
        None => Found::Free(instance, name),
        Some((number, sort)) => Found::Member(instance, name, number, sort),
    }
}

/// What stands behind a name and more names, from an instance on.
fn walked(built: &Built, instance: u32, first: Named, more: &[Named]) -> Found
    ensures { result ≡ steps_from built.now instance first more.now }
{
    let mut at = instance;
    let mut name = first;
    for next in more {
        match onward(built, at, name, *next) {
            Ok(number) => {
                at = number;
                name = *next;
            }
            Err(place) => return Found::Lost(place),
        }
    }
    ended(built, at, name)
}

/// What stands behind names, from an instance on.
pub(crate) fn stepped(built: &Built, instance: u32, whole: Span, steps: &[Named]) -> Found
    ensures { result ≡ steps_in built.now instance whole steps.now }
{
    match steps {
        [] => Found::Lost(whole),
        [first, more @ ..] => walked(built, instance, *first, more),
    }
}
