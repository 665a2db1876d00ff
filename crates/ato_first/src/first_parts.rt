//! What a block says of its part.
ghost use Rattle.std.specs.Prelude.{◌≡◌, true, MatchOption, None, Some};
ghost use Rattle.std.specs.List.{list_all};
ghost use Rattle.std.specs.Option.{option_copied};
ghost use Rattle.ato_first.specs.FirstForm.{is_line};
ghost use Rattle.ato_first.specs.PartLines.{kind_of, attribute_of, assertion_of};
ghost use Rattle.ato_first.specs.FirstParts.{part_of};

use crate::first_form::{Assertion, Line};
use crate::first_lines::ends_of;
use ato_base::Text;

/// A part: its kind, its attribute, and the least and the greatest value that is asserted of it.
#[derive(Clone, Copy)]
pub struct Part<'a> {
    /// The kind that its candidates have.
    pub kind: &'a Text,
    /// The name of its attribute.
    pub attribute: &'a Text,
    /// The least value that is asserted.
    pub low: u64,
    /// The greatest value that is asserted.
    pub high: u64,
}

/// The kind that the lines state first.
fn kind_of(lines: &[Line]) -> Option<&Text>
    ensures { option_copied result ≡ kind_of lines.now }
{
    for line in lines {
        if let Line::Kind(text) = line {
            return Some(text);
        }
    }
    None
}

/// The attribute that the lines declare first.
pub(crate) fn attribute_of(lines: &[Line]) -> Option<&Text>
    ensures { option_copied result ≡ attribute_of lines.now }
{
    for line in lines {
        if let Line::Attribute(name) = line {
            return Some(name);
        }
    }
    None
}

/// What the lines assert first.
fn assertion_of(lines: &[Line]) -> Option<&Assertion>
    ensures { option_copied result ≡ assertion_of lines.now }
{
    for line in lines {
        if let Line::Assertion(asserted) = line {
            return Some(asserted);
        }
    }
    None
}

/// The part that the lines describe, where all three of its lines stand.
pub fn part_of(lines: &[Line]) -> Option<Part<'_>>
    requires { list_all is_line lines.now ≡ true }
    ensures { MatchOption result (part_of lines.now ≡ None)
        (λ part. part_of lines.now ≡ Some (record { kind = part.kind.now; attribute = part.attribute.now; low = part.low; high = part.high })) }
{
    let kind = kind_of(lines)?;
    let attribute = attribute_of(lines)?;
    let (low, high) = ends_of(assertion_of(lines)?);
    Some(Part {
        kind,
        attribute,
        low,
        high,
    })
}
