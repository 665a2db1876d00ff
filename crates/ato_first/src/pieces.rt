ghost use Rattle.std.specs.Prelude.{◌≡◌, ◌++◌, ◌∷◌, [], ◌==◌, MatchOption, false, true, List, ℕ};
ghost use Rattle.std.specs.List.{list_any};
ghost use Rattle.std.specs.Str.{IsAscii};
ghost use Rattle.ato_first.specs.FirstForm.{lined, is_ascii_name};

use crate::names::is_ascii_name;

/// What stands before the first place of a byte, and what comes after it.
#[tactic(auto, using(std::proofs::lemmas::List::Folds::list_any_more, crate::proofs::Bytes::cut_at))]
pub(crate) fn cut(bytes: &[u8], mark: u8) -> Option<(&[u8], &[u8])>
    ensures { MatchOption result (list_any (λ b. b == mark) bytes.now ≡ false)
        (λ cut. (bytes.now ≡ (cut.0.now ++ mark ∷ []) ++ cut.1.now) × (list_any (λ b. b == mark) cut.0.now ≡ false)) }
{
    for (at, byte) in bytes.iter().enumerate() {
        if *byte == mark {
            return Some((&bytes[..at], &bytes[at + 1..]));
        }
    }
    None
}

/// The first line, and what comes after its line end.
pub(crate) fn first_line(bytes: &[u8]) -> Option<(&[u8], &[u8])>
    ensures { MatchOption result (list_any (λ b. b == 10) bytes.now ≡ false)
        (λ cut. (bytes.now ≡ lined cut.0.now ++ cut.1.now) × (list_any (λ b. b == 10) cut.0.now ≡ false)) }
{
    cut(bytes, b'\n')
}

/// What stands after a prefix.
pub(crate) fn after<'a>(text: &'a [u8], prefix: &[u8]) -> Option<&'a [u8]>
    ensures { MatchOption result ((rest : List ℕ) → text.now ≡ prefix.now ++ rest → ⊥) (λ rest. text.now ≡ prefix.now ++ rest.now) }
{
    text.strip_prefix(prefix)
}

/// What stands before a suffix.
pub(crate) fn before<'a>(text: &'a [u8], suffix: &[u8]) -> Option<&'a [u8]>
    ensures { MatchOption result ((front : List ℕ) → text.now ≡ front ++ suffix.now → ⊥) (λ front. text.now ≡ front.now ++ suffix.now) }
{
    text.strip_suffix(suffix)
}

/// The text of ASCII bytes.
fn ascii(bytes: &[u8]) -> &str
    requires { IsAscii bytes.now }
    ensures { result.now ≡ bytes.now }
{
    match str::from_utf8(bytes) {
        Ok(text) => text,
        Err(_) => unreachable!(),
    }
}

/// The name that a text is.
#[tactic(auto, using(crate::proofs::FirstFormLemmas::name_ascii))]
pub(crate) fn name_of(text: &[u8]) -> Option<&str>
    ensures { MatchOption result (is_ascii_name text.now ≡ false) (λ name. (is_ascii_name name.now ≡ true) × (name.now ≡ text.now)) }
{
    if is_ascii_name(text) {
        Some(ascii(text))
    } else {
        None
    }
}
