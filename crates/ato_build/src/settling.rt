//! What the words say, up to the print.
ghost use Rattle.std.specs.Prelude.{◌≡◌, ◌≤◌, ◌<◌, ◌⊎◌, Option, List, ℕ, Err, IfOk};
ghost use Rattle.ato_base.specs.declared.faults.Fault.{Fault};
ghost use Rattle.ato_outside.specs.Causes.{Counts, Rose};
ghost use Rattle.ato_outside.specs.Files.{Files};
ghost use Rattle.ato_build.specs.Answers.{IsTrueAnswer};
ghost use Rattle.ato_build.specs.Causes.{HasStatus, CountsReads};
ghost use Rattle.ato_build.specs.Headline.{Means};
ghost use Rattle.ato_build.specs.Texts.{said_text, usage_text};
ghost use Rattle.ato_words.specs.Words.{texts, IsBuild, IsCheck};

use crate::answer::{Answer, Said};
use crate::building::build_project;
use crate::checking::check_project;
use crate::project::{Options, Project};
use crate::texts::usage_text;
use crate::{Build, Check, Status, Task, job};
use ato_base::{FaultKind, NoMemory};
use ato_outside::{Shelf, Tray};
use std::alloc::Global;

/// The answer where the words are no job.
fn usage(alloc: Global) -> Result<Answer, NoMemory>
    ensures status { IfOk result (λ answer. answer.status ≡ Status.Usage) }
    ensures said { IfOk result (λ answer. said_text answer.said ≡ usage_text) }
{
    Ok(Answer {
        status: Status::Usage,
        said: Said::Text(usage_text(alloc)?),
    })
}

/// Builds what a build asks for.
fn perform_build<S: Shelf, T: Tray>(
    alloc: Global,
    build: Build,
    shelf: &mut S,
    tray: &mut T,
) -> Result<Answer, NoMemory>
    requires { build.steps ≡ 20000 }
    ensures means { (words : List (List ℕ)) → IsBuild words build → IsTrueAnswer words (S.files shelf.old) (T.files tray.old) (T.files tray.new) result }
    ensures same { S.files shelf.new ≡ S.files shelf.old }
    ensures missing { IfOk result (λ answer. (f : Fault) → answer.status ≡ Status.Fault f → f.kind ≡ FaultKind.FileMissing → Rose (S.misses shelf.old) (S.misses shelf.new)) }
    ensures reads { CountsReads (S.faults shelf.old) (S.faults shelf.new) (HasStatus Status.ReadFault result) (result ≡ Err (record {})) }
    ensures writes { Counts (T.faults tray.old) (T.faults tray.new) (HasStatus Status.WriteFault result) }
{
    let Build {
        file,
        block,
        catalogue,
        out,
        steps,
    } = build;
    let project = Project {
        file,
        block,
        catalogue,
    };
    build_project(alloc, &project, &Options { out, steps }, shelf, tray)
}

/// Checks what a check asks for.
fn perform_check<S: Shelf>(alloc: Global, check: Check, shelf: &mut S) -> Result<Answer, NoMemory>
    ensures means { (words : List (List ℕ)) → (tray : Option Files) → IsCheck words check → IsTrueAnswer words (S.files shelf.old) tray tray result }
    ensures same { S.files shelf.new ≡ S.files shelf.old }
    ensures missing { IfOk result (λ answer. (f : Fault) → answer.status ≡ Status.Fault f → f.kind ≡ FaultKind.FileMissing → Rose (S.misses shelf.old) (S.misses shelf.new)) }
    ensures reads { CountsReads (S.faults shelf.old) (S.faults shelf.new) (HasStatus Status.ReadFault result) (result ≡ Err (record {})) }
    ensures no_write { HasStatus Status.WriteFault result → ⊥ }
{
    let Check {
        file,
        block,
        catalogue,
        cert,
    } = check;
    let project = Project {
        file,
        block,
        catalogue,
    };
    check_project(alloc, &project, cert.as_str(), shelf)
}

/// Does what the words say, up to the print.
fn perform<S: Shelf, T: Tray>(
    alloc: Global,
    words: &Vec<String>,
    shelf: &mut S,
    tray: &mut T,
) -> Result<Answer, NoMemory>
    ensures means { IsTrueAnswer (texts words.now.items) (S.files shelf.old) (T.files tray.old) (T.files tray.new) result }
    ensures same { S.files shelf.new ≡ S.files shelf.old }
    ensures missing { IfOk result (λ answer. (f : Fault) → answer.status ≡ Status.Fault f → f.kind ≡ FaultKind.FileMissing → Rose (S.misses shelf.old) (S.misses shelf.new)) }
    ensures reads { CountsReads (S.faults shelf.old) (S.faults shelf.new) (HasStatus Status.ReadFault result) (result ≡ Err (record {})) }
    ensures writes { Counts (T.faults tray.old) (T.faults tray.new) (HasStatus Status.WriteFault result) }
{
    match job(alloc, words)? {
        None => usage(alloc),
        Some(task) => match task {
            Task::Build(build) => perform_build(alloc, build, shelf, tray),
            Task::Check(check) => perform_check(alloc, check, shelf),
        },
    }
}

/// Does what the words say, up to the print, and answers want of memory like any other end.
pub(crate) fn settle<S: Shelf, T: Tray>(
    alloc: Global,
    words: &Vec<String>,
    shelf: &mut S,
    tray: &mut T,
) -> Answer
    ensures means { Means (texts words.now.items) (S.files shelf.old) (T.files tray.old) (T.files tray.new) result.status (said_text result.said) }
    ensures same { S.files shelf.new ≡ S.files shelf.old }
    ensures later { S.faults shelf.old ≤ S.faults shelf.new }
    ensures missing { (f : Fault) → result.status ≡ Status.Fault f → f.kind ≡ FaultKind.FileMissing → Rose (S.misses shelf.old) (S.misses shelf.new) }
    ensures read { result.status ≡ Status.ReadFault → Rose (S.faults shelf.old) (S.faults shelf.new) }
    ensures kept { S.faults shelf.old < S.faults shelf.new → (result.status ≡ Status.ReadFault) ⊎ (result.status ≡ Status.NoMemory) }
    ensures writes { Counts (T.faults tray.old) (T.faults tray.new) (result.status ≡ Status.WriteFault) }
{
    match perform(alloc, words, shelf, tray) {
        Ok(answer) => answer,
        Err(_) => Answer {
            status: Status::NoMemory,
            said: Said::OutOfMemory,
        },
    }
}
