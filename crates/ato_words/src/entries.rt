//! An entry of the command line: a file, a colon and the name of a block.
ghost use Rattle.std.specs.Prelude.{◌≡◌, ◌++◌, ◌∷◌, ◌==◌, ℕ, List, true, false, MatchOption};
ghost use Rattle.std.specs.List.{list_any};
ghost use Rattle.ato_words.specs.Words.{is_entry};

use crate::plain_names::is_plain;
use ato_base::is_name;

fn has_colon(text: &str) -> bool
    ensures { result ≡ list_any (λ b. b == 58) text.now }
{
    text.as_bytes().iter().any(|byte| *byte == b':')
}

/// Whether a file and a block may be an entry's.
fn is_entry(file: &str, block: &str) -> bool
    ensures { result ≡ is_entry file.now block.now }
{
    is_plain(file) && is_name(block) && !has_colon(block)
}

/// The two sides of the last colon.
fn last_colon(entry: &str) -> Option<(&str, &str)>
    ensures { MatchOption result (list_any (λ b. b == 58) entry.now ≡ false)
        (λ sides. (entry.now ≡ sides.0.now ++ 58 ∷ sides.1.now) × (list_any (λ b. b == 58) sides.1.now ≡ false)) }
{
    match entry.rfind(':') {
        None => None,
        Some(at) => Some((&entry[..at], &entry[at + 1..])),
    }
}

/// The file and the block of an entry.
pub(crate) fn entry_parts(entry: &str) -> Option<(&str, &str)>
    ensures { MatchOption result
        ((file block : List ℕ) → entry.now ≡ file ++ 58 ∷ block → is_entry file block ≡ true → ⊥)
        (λ parts. (entry.now ≡ parts.0.now ++ 58 ∷ parts.1.now) × (is_entry parts.0.now parts.1.now ≡ true)) }
{
    match last_colon(entry) {
        None => None,
        Some((file, block)) => {
            if is_entry(file, block) {
                Some((file, block))
            } else {
                None
            }
        }
    }
}
