//! One build, up to the print.
ghost use Rattle.std.specs.Prelude.{◌≡◌, Option, List, ℕ, Err, IfOk, string_bytes};
ghost use Rattle.ato_base.specs.declared.faults.Fault.{Fault};
ghost use Rattle.ato_outside.specs.Causes.{Counts, Rose};
ghost use Rattle.ato_outside.specs.Files.{Files};
ghost use Rattle.ato_build.specs.Answers.{IsTrueAnswer, IsStopped, IsPutStatus};
ghost use Rattle.ato_build.specs.Causes.{IsEnd, HasStatus, CountsReads};
ghost use Rattle.ato_build.specs.Headline.{Means, Decides};
ghost use Rattle.ato_build.specs.Projects.{built_project, options_of};
ghost use Rattle.ato_build.specs.Texts.{said_text};
ghost use Rattle.ato_words.specs.Words.{IsBuild};
ghost use Rattle.ato_words.specs.declared.words.Build.{Build};

use crate::Status;
use crate::answer::{Answer, Said};
use crate::decisions::{Decision, decide};
use crate::outputs::{Stop, put_all};
use crate::project::{Options, Project};
use crate::reading::{Reading, read_project};
use ato_base::{FaultKind, NoMemory};
use ato_outside::{Shelf, Tray, TrayError};
use std::alloc::Global;

/// The answer where the tray stopped.
fn stopped(stop: Stop) -> Answer
    ensures { IsStopped stop result }
{
    match stop.error {
        TrayError::Failed => Answer {
            status: Status::WriteFault,
            said: Said::WriteFault(stop.name),
        },
        TrayError::NoMemory => Answer {
            status: Status::NoMemory,
            said: Said::OutOfMemory,
        },
    }
}

/// Puts what is decided.
fn put_decision<T: Tray>(decision: Decision, tray: &mut T) -> Answer
    requires { IsEnd decision.status }
    ensures means { (words : List (List ℕ)) → (held : Option Files) → Decides words held decision.status decision.outputs.items (string_bytes decision.summary)
        → Means words held (T.files tray.old) (T.files tray.new) result.status (said_text result.said) }
    ensures ends { IsPutStatus result.status }
    ensures writes { Counts (T.faults tray.old) (T.faults tray.new) (result.status ≡ Status.WriteFault) }
{
    let Decision {
        status,
        outputs,
        summary,
    } = decision;
    match put_all(tray, outputs) {
        None => Answer {
            status,
            said: Said::Text(summary),
        },
        Some(stop) => stopped(stop),
    }
}

/// Reads a project and builds it.
pub(crate) fn build_project<S: Shelf, T: Tray>(
    alloc: Global,
    project: &Project,
    options: &Options,
    shelf: &mut S,
    tray: &mut T,
) -> Result<Answer, NoMemory>
    requires { options.now.steps ≡ 20000 }
    ensures means { (words : List (List ℕ)) → (build : Build) → IsBuild words build → built_project build ≡ project.now → options_of build ≡ options.now
        → IsTrueAnswer words (S.files shelf.old) (T.files tray.old) (T.files tray.new) result }
    ensures same { S.files shelf.new ≡ S.files shelf.old }
    ensures missing { IfOk result (λ answer. (f : Fault) → answer.status ≡ Status.Fault f → f.kind ≡ FaultKind.FileMissing → Rose (S.misses shelf.old) (S.misses shelf.new)) }
    ensures reads { CountsReads (S.faults shelf.old) (S.faults shelf.new) (HasStatus Status.ReadFault result) (result ≡ Err (record {})) }
    ensures writes { Counts (T.faults tray.old) (T.faults tray.new) (HasStatus Status.WriteFault result) }
{
    match read_project(alloc, project, shelf)? {
        Reading::Ended(answer) => Ok(answer),
        Reading::Ready(sources) => {
            let decision = decide(alloc, options, &sources.block, &sources.catalog)?;
            Ok(put_decision(decision, tray))
        }
    }
}
