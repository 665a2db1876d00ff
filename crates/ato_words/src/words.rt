//! The task that the words of the command line are.
ghost use Rattle.std.specs.Prelude.{◌≡◌, IfOk, IfSome, IfNone};
ghost use Rattle.ato_words.specs.Words.{IsJob, IsNoJob, texts};
ghost use Rattle.ato_words.specs.WordLines.{line_of, IsTaskLine};
ghost use Rattle.ato_words.specs.declared.words.Task.{Task};

use crate::builds::{build_of, out_of};
use crate::checks::check_of;
use crate::word_line::{WordLine, read_words};
use ato_base::{NoMemory, Text};
use std::alloc::Global;

/// A build: the entry's file and block, the catalogue, the name of what is put, and the steps of the
/// search.
#[derive(Debug, Drop)]
pub struct Build {
    pub file: Text,
    pub block: Text,
    pub catalogue: Text,
    pub out: Text,
    pub steps: u32,
}

/// A check: the entry's file and block, the catalogue, and the file of the certificate.
#[derive(Debug, Drop)]
pub struct Check {
    pub file: Text,
    pub block: Text,
    pub catalogue: Text,
    pub cert: Text,
}

/// What the words ask for.
#[derive(Debug, Drop)]
pub enum Task {
    /// Pick a part, and put the files.
    Build(Build),
    /// Check a certificate.
    Check(Check),
}

/// The task that the words are from left to right, where they are one.
fn task_of(alloc: Global, words: &[String]) -> Result<Option<Task>, NoMemory>
    ensures some { IfOk result (λ found. IfSome found (IsTaskLine (line_of (texts words.now)))) }
    ensures none { IfOk result (λ found. IfNone found ((task : Task) → IsTaskLine (line_of (texts words.now)) task → ⊥)) }
{
    let WordLine {
        turn,
        positional,
        out,
    } = read_words(alloc, words)?;
    if !turn.is_read() {
        return Ok(None);
    }
    let has_option = out.is_some();
    let out = out_of(alloc, out)?;
    if let Some(build) = build_of(alloc, positional.as_slice(), out)? {
        return Ok(Some(Task::Build(build)));
    }
    if has_option {
        return Ok(None);
    }
    match check_of(alloc, positional.as_slice())? {
        None => Ok(None),
        Some(check) => Ok(Some(Task::Check(check))),
    }
}

/// The task that the words are, where they are one.
pub fn job(alloc: Global, words: &Vec<String>) -> Result<Option<Task>, NoMemory>
    ensures some { IfOk result (λ found. IfSome found (λ task. IsJob (texts words.now.items) task)) }
    ensures none { IfOk result (λ found. IfNone found (IsNoJob (texts words.now.items))) }
{
    task_of(alloc, words.as_slice())
}
