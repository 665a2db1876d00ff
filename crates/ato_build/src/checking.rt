//! One check of a certificate, up to the print.
ghost use Rattle.std.specs.Prelude.{◌≡◌, ◌≤◌, ◌<◌, ◌^◌, Option, List, ℕ, true, Err, IfOk, length};
ghost use Rattle.std.specs.List.{list_all};
ghost use Rattle.ato_base.specs.declared.faults.Fault.{Fault};
ghost use Rattle.ato_first.specs.FirstForm.{is_line};
ghost use Rattle.ato_first_catalog.specs.Catalogue.{ShowsContents};
ghost use Rattle.ato_first_catalog.specs.Contents.{Contents};
ghost use Rattle.ato_first_catalog.specs.WellMade as catalogues;
ghost use Rattle.ato_cert.specs.Problems.{IsWellMade, HasAtMost, HasNumbersBelow};
ghost use Rattle.ato_cert.specs.Texts.{proof_word};
ghost use Rattle.ato_first.specs.FirstParts.{HasRanges};
ghost use Rattle.ato_outside.specs.Causes.{Rose};
ghost use Rattle.ato_outside.specs.Files.{Files};
ghost use Rattle.ato_build.specs.Answers.{IsTrueAnswer};
ghost use Rattle.ato_build.specs.Boards.{board_of};
ghost use Rattle.ato_build.specs.Causes.{IsVerdict, HasStatus, CountsReads};
ghost use Rattle.ato_build.specs.Entry.{GivesBlock};
ghost use Rattle.ato_build.specs.Found.{Whole};
ghost use Rattle.ato_build.specs.Input.{certificate_limit};
ghost use Rattle.ato_build.specs.Judgements.{IsJudged, IsJudgement};
ghost use Rattle.ato_build.specs.Projects.{checked_project};
ghost use Rattle.ato_build.specs.Readings.{AreSources};
ghost use Rattle.ato_build.specs.Texts.{accepted_text, rejected_text, said_text};
ghost use Rattle.ato_words.specs.Words.{IsCheck};
ghost use Rattle.ato_words.specs.declared.words.Check.{Check};

use crate::Status;
use crate::answer::{Answer, Said};
use crate::entry::word_fault;
use crate::fetching::{Fetched, fetch};
use crate::problems::problem_of;
use crate::project::Project;
use crate::reading::{Reading, Sources, read_project};
use crate::refusing::{refuse, unread};
use crate::texts::{accepted_text, rejected_text};
use ato_base::{FaultKind, NoMemory};
use ato_cert::{CertRefusal, Problem, Proof, Verdict, read_cert};
use ato_check::{Checked, check};
use ato_first::{Block, part_of};
use ato_first_catalog::Catalog;
use ato_outside::Shelf;
use std::alloc::Global;

/// The most bytes that a certificate may have.
const CERTIFICATE_LIMIT: usize = 1_073_741_824;

/// The word of what a certificate shows.
fn verdict_word(proof: &Proof) -> &'static str
    ensures { result.now ≡ proof_word proof.now }
{
    match proof {
        Proof::Built { .. } => "built",
        Proof::Tree {
            verdict: Verdict::Refuted,
            ..
        } => "refuted",
    }
}

/// The answer for a valid certificate.
fn accepted(alloc: Global, proof: &Proof) -> Result<Answer, NoMemory>
    ensures status { IfOk result (λ answer. answer.status ≡ Status.Accepted) }
    ensures said { IfOk result (λ answer. said_text answer.said ≡ accepted_text (proof_word proof.now)) }
{
    let text = accepted_text(alloc, verdict_word(proof))?;
    Ok(Answer {
        status: Status::Accepted,
        said: Said::Text(text),
    })
}

/// The answer for bytes that are no valid certificate.
fn rejected(alloc: Global, line: u32) -> Result<Answer, NoMemory>
    ensures status { IfOk result (λ answer. answer.status ≡ Status.Rejected line) }
    ensures said { IfOk result (λ answer. said_text answer.said ≡ rejected_text line) }
{
    let text = rejected_text(alloc, line)?;
    Ok(Answer {
        status: Status::Rejected(line),
        said: Said::Text(text),
    })
}

/// The answer for the bytes of a certificate of a problem.
fn judge(alloc: Global, problem: &Problem, bytes: &[u8]) -> Result<Answer, NoMemory>
    requires made { IsWellMade problem.now }
    requires few { HasAtMost 1000 problem.now }
    requires size { length bytes.now < 2 ^ 32 }
    ensures verdict { IfOk result (λ answer. IsVerdict answer.status) }
    ensures judged { IfOk result (λ answer. HasNumbersBelow (2 ^ 32) problem.now → IsJudged problem.now bytes.now answer.status (said_text answer.said)) }
{
    match read_cert(alloc, bytes, problem) {
        Ok(cert) => match check(alloc, problem, &cert)? {
            Checked::Accepted => accepted(alloc, &cert.proof),
            Checked::Rejected(line) => rejected(alloc, line),
        },
        Err(refusal) => match refusal {
            CertRefusal::Bad(line) => rejected(alloc, line),
            CertRefusal::NoMemory => Err(NoMemory),
        },
    }
}

/// The answer for the bytes of a certificate of a block with a catalogue.
fn judge_block(
    alloc: Global,
    block: &Block,
    catalog: &Catalog,
    bytes: &[u8],
) -> Result<Answer, NoMemory>
    requires form { list_all is_line block.now.lines ≡ true }
    requires ranges { HasRanges block.now }
    requires made { catalogues.IsWellMade catalog.now }
    requires size { length bytes.now ≤ certificate_limit }
    ensures verdict { IfOk result (λ answer. IsVerdict answer.status) }
    ensures judgement { IfOk result (λ answer. (contents : Contents) → ShowsContents catalog.now contents
        → IsJudgement (board_of block.now contents) bytes.now answer.status (said_text answer.said)) }
{
    let problem = problem_of(alloc, part_of(block.lines.as_slice()), catalog)?;
    judge(alloc, &problem, bytes)
}

/// Reads the certificate of a project that was read, and checks it.
fn check_sources<S: Shelf>(
    alloc: Global,
    project: &Project,
    cert: &str,
    sources: &Sources,
    shelf: &mut S,
) -> Result<Answer, NoMemory>
    requires gives { GivesBlock project.now (Whole sources.now.source) sources.now.block }
    requires made { catalogues.IsWellMade sources.now.catalog }
    ensures means { (words : List (List ℕ)) → (check : Check) → (tray : Option Files) → IsCheck words check → checked_project check ≡ project.now → check.cert ≡ cert.now
        → AreSources (S.files shelf.old) project.now sources.now → IsTrueAnswer words (S.files shelf.old) tray tray result }
    ensures same { S.files shelf.new ≡ S.files shelf.old }
    ensures missing { IfOk result (λ answer. (f : Fault) → answer.status ≡ Status.Fault f → f.kind ≡ FaultKind.FileMissing → Rose (S.misses shelf.old) (S.misses shelf.new)) }
    ensures reads { CountsReads (S.faults shelf.old) (S.faults shelf.new) (HasStatus Status.ReadFault result) (result ≡ Err (record {})) }
    ensures no_write { HasStatus Status.WriteFault result → ⊥ }
{
    let source = sources.source.as_slice();
    match fetch(alloc, shelf, cert, CERTIFICATE_LIMIT)? {
        Fetched::Failed => unread(alloc, cert),
        Fetched::Missing => refuse(
            alloc,
            project,
            source,
            word_fault(alloc, FaultKind::FileMissing, 3),
        ),
        Fetched::TooLong => refuse(
            alloc,
            project,
            source,
            word_fault(alloc, FaultKind::FileTooLong, 3),
        ),
        Fetched::Whole(bytes) => {
            judge_block(alloc, &sources.block, &sources.catalog, bytes.as_slice())
        }
    }
}

/// Reads a project and the certificate of a name, and checks it.
pub(crate) fn check_project<S: Shelf>(
    alloc: Global,
    project: &Project,
    cert: &str,
    shelf: &mut S,
) -> Result<Answer, NoMemory>
    ensures means { (words : List (List ℕ)) → (check : Check) → (tray : Option Files) → IsCheck words check → checked_project check ≡ project.now → check.cert ≡ cert.now
        → IsTrueAnswer words (S.files shelf.old) tray tray result }
    ensures same { S.files shelf.new ≡ S.files shelf.old }
    ensures missing { IfOk result (λ answer. (f : Fault) → answer.status ≡ Status.Fault f → f.kind ≡ FaultKind.FileMissing → Rose (S.misses shelf.old) (S.misses shelf.new)) }
    ensures reads { CountsReads (S.faults shelf.old) (S.faults shelf.new) (HasStatus Status.ReadFault result) (result ≡ Err (record {})) }
    ensures no_write { HasStatus Status.WriteFault result → ⊥ }
{
    match read_project(alloc, project, shelf)? {
        Reading::Ended(answer) => Ok(answer),
        Reading::Ready(sources) => check_sources(alloc, project, cert, &sources, shelf),
    }
}
