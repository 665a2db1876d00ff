ghost use Rattle.std.specs.Prelude.{◌≡◌, ◌++◌, ◌∷◌, ◌==◌, MatchOption, false, true, List, ℕ, codes};
ghost use Rattle.std.specs.List.{list_any};
ghost use Rattle.ato_first.specs.FirstForm.{is_line, is_kind_text, is_attribute_name, is_short_number};
ghost use Rattle.ato_first.specs.Statements.{read_assertion, IsAssertionText, words_text};
ghost use Rattle.ato_first.specs.declared.first_form.Assertion as asserted;
ghost use Rattle.ato_first.specs.declared.first_form.Line.{Line};

use crate::names::{is_kind_text, is_reserved, is_short_number};
use crate::pieces::{after, before, cut, name_of};
use crate::statements::AssertionText;

/// The text of the kind that a line states, behind its indentation.
pub(crate) fn kind_of(text: &[u8]) -> Option<&[u8]>
    ensures { MatchOption result ((kind : List ℕ) → is_kind_text kind ≡ true → text.now ≡ words_text (Line.Kind kind) → ⊥)
        (λ kind. (is_kind_text kind.now ≡ true) × (text.now ≡ words_text (Line.Kind kind.now))) }
{
    match after(text, b"kind = \"") {
        None => None,
        Some(rest) => match before(rest, b"\"") {
            Some(kind) if is_kind_text(kind) => Some(kind),
            _ => None,
        },
    }
}

/// The name of an attribute that a text is.
fn attribute_name(text: &[u8]) -> Option<&str>
    ensures { MatchOption result (is_attribute_name text.now ≡ false) (λ name. (is_attribute_name name.now ≡ true) × (name.now ≡ text.now)) }
{
    if is_reserved(text) {
        None
    } else {
        name_of(text)
    }
}

/// The attribute that a line declares, behind its indentation.
pub(crate) fn attribute_of(text: &[u8]) -> Option<&str>
    ensures { MatchOption result ((name : List ℕ) → is_attribute_name name ≡ true → text.now ≡ words_text (Line.Attribute name) → ⊥)
        (λ name. (is_attribute_name name.now ≡ true) × (text.now ≡ words_text (Line.Attribute name.now))) }
{
    match before(text, b": dimensionless") {
        None => None,
        Some(name) => attribute_name(name),
    }
}

/// What stands before the first blank, and what after it and a word.
fn around<'a>(text: &'a [u8], word: &[u8]) -> Option<(&'a [u8], &'a [u8])>
    ensures { MatchOption result
        ((left right : List ℕ) → list_any (λ b. b == 32) left ≡ false → text.now ≡ left ++ 32 ∷ (word.now ++ right) → ⊥)
        (λ sides. (text.now ≡ sides.0.now ++ 32 ∷ (word.now ++ sides.1.now)) × (list_any (λ b. b == 32) sides.0.now ≡ false)) }
{
    let (left, rest) = cut(text, b' ')?;
    let right = after(rest, word)?;
    Some((left, right))
}

/// The digits of the two ends of a range.
fn range_of(text: &[u8]) -> Option<(&[u8], &[u8])>
    ensures { MatchOption result
        ((low high : List ℕ) → is_short_number low ≡ true → is_short_number high ≡ true → text.now ≡ low ++ (codes " to " ++ high) → ⊥)
        (λ ends. (is_short_number ends.0.now ≡ true) × (is_short_number ends.1.now ≡ true) × (text.now ≡ ends.0.now ++ (codes " to " ++ ends.1.now))) }
{
    let (low, high) = around(text, b"to ")?;
    if is_short_number(low) && is_short_number(high) {
        Some((low, high))
    } else {
        None
    }
}

/// What a line asserts, behind its indentation.
pub(crate) fn assertion_of(text: &[u8]) -> Option<AssertionText<'_>>
    ensures { MatchOption result
        ((assertion : asserted.Assertion) → is_line (Line.Assertion assertion) ≡ true → text.now ≡ words_text (Line.Assertion assertion) → ⊥)
        (λ found. IsAssertionText found × (text.now ≡ words_text (Line.Assertion (read_assertion found)))) }
{
    let claim = after(text, b"assert ")?;
    let (word, range) = around(claim, b"within ")?;
    let name = name_of(word)?;
    let (low, high) = range_of(range)?;
    Some(AssertionText { name, low, high })
}
