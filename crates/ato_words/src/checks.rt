//! The positional words of a check.
ghost use Rattle.std.specs.Prelude.{◌≡◌, ◌++◌, ◌∷◌, [], ℕ, List, true, codes, IfOk, IfSome, IfNone, MatchOption};
ghost use Rattle.ato_words.specs.declared.words.Check.{Check};
ghost use Rattle.ato_words.specs.PlainNames.{is_plain};
ghost use Rattle.ato_words.specs.Words.{IsCheckOf, is_entry};

use crate::entries::entry_parts;
use crate::plain_names::is_plain;
use crate::words::Check;
use ato_base::{NoMemory, Text};
use std::alloc::Global;

/// The texts of four words.
#[tactic(auto, using(crate::proofs::WordLemmas::four_texts, crate::proofs::WordLemmas::not_four_texts))]
fn four_words(words: &[Text]) -> Option<(&str, &str, &str, &str)>
    ensures { MatchOption result
        ((a b c d : List ℕ) → words.now ≡ a ∷ b ∷ c ∷ d ∷ [] → ⊥)
        (λ four. words.now ≡ four.0.now ∷ four.1.now ∷ four.2.now ∷ four.3.now ∷ []) }
{
    if words.len() == 4 {
        Some((
            words[0].as_str(),
            words[1].as_str(),
            words[2].as_str(),
            words[3].as_str(),
        ))
    } else {
        None
    }
}

/// The file, the block, the catalogue and the certificate of positional words that are a check.
fn check_parts(words: &[Text]) -> Option<(&str, &str, &str, &str)>
    ensures { MatchOption result ((check : Check) → IsCheckOf words.now check → ⊥)
        (λ parts. (words.now ≡ codes "check" ∷ (parts.0.now ++ 58 ∷ parts.1.now) ∷ parts.2.now ∷ parts.3.now ∷ [])
        × (is_entry parts.0.now parts.1.now ≡ true)
        × (is_plain parts.2.now ≡ true)
        × (is_plain parts.3.now ≡ true)) }
{
    let (command, entry, catalogue, cert) = four_words(words)?;
    if command != "check" {
        return None;
    }
    let (file, block) = entry_parts(entry)?;
    if !is_plain(catalogue) {
        return None;
    }
    if !is_plain(cert) {
        return None;
    }
    Some((file, block, catalogue, cert))
}

/// The check that positional words are, where they are one.
pub(crate) fn check_of(alloc: Global, words: &[Text]) -> Result<Option<Check>, NoMemory>
    ensures some { IfOk result (λ found. IfSome found (λ check. IsCheckOf words.now check)) }
    ensures none { IfOk result (λ found. IfNone found ((check : Check) → IsCheckOf words.now check → ⊥)) }
{
    let Some((file, block, catalogue, cert)) = check_parts(words) else {
        return Ok(None);
    };
    let file = Text::copy(alloc, file)?;
    let block = Text::copy(alloc, block)?;
    let catalogue = Text::copy(alloc, catalogue)?;
    let cert = Text::copy(alloc, cert)?;
    Ok(Some(Check {
        file,
        block,
        catalogue,
        cert,
    }))
}
