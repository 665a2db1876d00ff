//! The positional words of a build.
ghost use Rattle.std.specs.Prelude.{◌≡◌, ◌++◌, ◌∷◌, [], ℕ, List, true, codes, IfOk, IfSome, IfNone, MatchOption, unwrap_or};
ghost use Rattle.ato_words.specs.declared.words.Build.{Build};
ghost use Rattle.ato_words.specs.Words.{IsBuildOf, is_entry, are_apart, default_out};

use crate::entries::entry_parts;
use crate::plain_names::{is_plain, is_put};
use crate::words::Build;
use ato_base::{NoMemory, Text};
use std::alloc::Global;

/// What is put where the words do not say.
const OUT: &str = "out";

/// The steps of the search where the words do not say.
const STEPS: u32 = 20000;

/// Whether the names are plain, and the build puts neither the entry's file nor the catalogue.
fn are_apart(out: &str, file: &str, catalogue: &str) -> bool
    ensures { result ≡ are_apart out.now file.now catalogue.now }
{
    is_plain(out) && is_plain(catalogue) && !is_put(out, file) && !is_put(out, catalogue)
}

/// The texts of three words.
#[tactic(auto, using(crate::proofs::WordLemmas::three_texts, crate::proofs::WordLemmas::not_three_texts))]
fn three_words(words: &[Text]) -> Option<(&str, &str, &str)>
    ensures { MatchOption result
        ((a b c : List ℕ) → words.now ≡ a ∷ b ∷ c ∷ [] → ⊥)
        (λ three. words.now ≡ three.0.now ∷ three.1.now ∷ three.2.now ∷ []) }
{
    if words.len() == 3 {
        Some((words[0].as_str(), words[1].as_str(), words[2].as_str()))
    } else {
        None
    }
}

/// The file, the block and the catalogue of positional words that are a build.
fn build_parts<'a>(words: &'a [Text], out: &str) -> Option<(&'a str, &'a str, &'a str)>
    ensures { MatchOption result ((build : Build) → IsBuildOf words.now out.now build → ⊥)
        (λ parts. (words.now ≡ codes "build" ∷ (parts.0.now ++ 58 ∷ parts.1.now) ∷ parts.2.now ∷ [])
        × (is_entry parts.0.now parts.1.now ≡ true)
        × (are_apart out.now parts.0.now parts.2.now ≡ true)) }
{
    let (command, entry, catalogue) = three_words(words)?;
    if command != "build" {
        return None;
    }
    let (file, block) = entry_parts(entry)?;
    if !are_apart(out, file, catalogue) {
        return None;
    }
    Some((file, block, catalogue))
}

/// The build that positional words are, where they are one.
pub(crate) fn build_of(alloc: Global, words: &[Text], out: Text) -> Result<Option<Build>, NoMemory>
    ensures some { IfOk result (λ found. IfSome found (λ build. IsBuildOf words.now out build)) }
    ensures none { IfOk result (λ found. IfNone found ((build : Build) → IsBuildOf words.now out build → ⊥)) }
{
    let Some((file, block, catalogue)) = build_parts(words, out.as_str()) else {
        return Ok(None);
    };
    let file = Text::copy(alloc, file)?;
    let block = Text::copy(alloc, block)?;
    let catalogue = Text::copy(alloc, catalogue)?;
    Ok(Some(Build {
        file,
        block,
        catalogue,
        out,
        steps: STEPS,
    }))
}

/// The name of what is put.
pub(crate) fn out_of(alloc: Global, out: Option<Text>) -> Result<Text, NoMemory>
    ensures { IfOk result (λ text. text ≡ unwrap_or out default_out) }
{
    match out {
        Some(out) => Ok(out),
        None => Text::copy(alloc, OUT),
    }
}
