//! Prefixes of designators.
ghost use Rattle.std.specs.Prelude.{◌≡◌};
ghost use Rattle.std.specs.List.{list_all};
ghost use Rattle.ato_instance_tree.specs.PathFaults.{is_letter, is_prefix};
ghost use Rattle.ato_elab.specs.Late.{same_entry, same_numbers, counts_in, key_is, prefix_in, text_in};

use crate::faults::{Mark, wrong};
use crate::finding_paths::Found;
use crate::late_ground::Ground;
use ato_ast::{Named, Quoted};
use ato_base::Name;
use ato_instance_tree::{Occurrence, source_text};

/// Whether a byte is an ASCII letter.
fn is_letter(c: u8) -> bool
    ensures { result ≡ is_letter c }
{
    (65 <= c && c <= 90) || (97 <= c && c <= 122)
}

/// Whether a text has only letters.
fn has_letters(text: &[u8]) -> bool
    ensures { result ≡ list_all is_letter text.now }
{
    text.iter().all(|c| is_letter(*c))
}

/// Whether a text is a prefix: 1 to 8 ASCII letters.
fn is_prefix(text: &[u8]) -> bool
    ensures { result ≡ is_prefix text.now }
{
    0 < text.len() && text.len() <= 8 && has_letters(text)
}

/// Whether two occurrences are of the same statement of the same instance.
fn same_entry(a: &Occurrence, b: &Occurrence) -> bool
    ensures { result ≡ same_entry a.now b.now }
{
    a.node == b.node && a.block == b.block && a.line == b.line && a.part == b.part
}

/// Whether the occurrences of two numbers are the same.
fn same_numbers(all: &[Occurrence], number: u32, other: Option<u32>) -> bool
    ensures { result ≡ same_numbers all.now number other }
{
    let Some(other) = other else {
        return false;
    };
    match (all.get(number as usize), all.get(other as usize)) {
        (Some(a), Some(b)) => same_entry(a, b),
        _ => false,
    }
}

/// Whether the occurrence of a number is the assignment that counts for a name of an instance.
#[tactic(auto, unfolding(crate::specs::Late::counts_in))]
fn counts_in(ground: &Ground<'_>, number: u32, instance: u32, name: Name) -> bool
    ensures { result ≡ counts_in ground.now number instance name.0 }
{
    let other = ground.assigned.get(instance, name.0);
    same_numbers(ground.built.occurrences.as_slice(), number, other)
}

/// Whether a name is this one.
fn key_is(key: Option<Name>, name: Named) -> bool
    ensures { result ≡ key_is key name }
{
    match key {
        Some(key) => name.name.0 == key.0,
        None => false,
    }
}

/// What is wrong with a string that an occurrence assigns to a name of an instance.
#[tactic(auto, unfolding(crate::specs::Late::prefix_in))]
fn prefix_in(
    ground: &Ground<'_>,
    number: u32,
    instance: u32,
    name: Named,
    text: Quoted,
) -> Option<Mark>
    ensures { result ≡ prefix_in ground.now number instance name text }
{
    if !key_is(ground.prefix, name) {
        return None;
    }
    if !counts_in(ground, number, instance, name.name) {
        return None;
    }
    if is_prefix(source_text(ground.files, text.contents)) {
        return None;
    }
    Some(wrong(text.at))
}

/// What is wrong with a string that an occurrence assigns where a path leads.
pub(crate) fn text_in(ground: &Ground<'_>, number: u32, text: Quoted, found: Found) -> Option<Mark>
    ensures { result ≡ text_in ground.now number text found }
{
    match found {
        Found::Free(instance, name) => prefix_in(ground, number, instance, name, text),
        Found::Lost(_) | Found::Member(_, _, _, _) | Found::Pin(_) => None,
    }
}
