ghost use Rattle.std.specs.Prelude.{◌≡◌, [], ◌≤◌, IfOk, IfSome, length, string_bytes};
ghost use Rattle.ato_build.specs.Texts.{line_at, begins_char, column_at, place_in_text, word_text, files_with, place_text, also_text, fault_text, verdict_text, problem_text, summary_text, read_fault_text, accepted_text, rejected_text, usage_text, LiesWithin};

use crate::project::Project;
use ato_base::{Fault, NetList, NoMemory, Place};
use std::alloc::Global;

/// The line of a byte, from 1.
fn line_at(source: &[u8], at: usize) -> usize
    requires { at ≤ length source.now }
    ensures { result ≡ line_at source.now at }
{
    source[..at].iter().filter(|byte| **byte == b'\n').count() + 1
}

fn begins_char(byte: u8) -> bool
    ensures { result ≡ begins_char byte }
{
    byte < 128 || byte >= 192
}

/// The column of a byte in characters, from 1.
fn column_at(source: &[u8], at: usize) -> usize
    requires { at ≤ length source.now }
    ensures { result ≡ column_at source.now at }
{
    source[..at]
        .iter()
        .rev()
        .take_while(|byte| **byte != b'\n')
        .filter(|byte| begins_char(**byte))
        .count()
        + 1
}

/// Two numbers behind a file's name.
#[tactic(auto, unfolding(crate::specs::Texts::place_in_text))]
fn place_in_text(alloc: Global, file: &str, row: usize, column: usize) -> Result<String, NoMemory>
    ensures { IfOk result (λ text. string_bytes text ≡ place_in_text file.now row column) }
{
    Ok(format!(in alloc; "{file}:{row}:{column}")?)
}

#[tactic(auto, unfolding(crate::specs::Texts::word_text))]
fn word_text(alloc: Global, word: u32) -> Result<String, NoMemory>
    ensures { IfOk result (λ text. string_bytes text ≡ word_text word) }
{
    Ok(format!(in alloc; "word {word}")?)
}

fn place_text(
    alloc: Global,
    project: &Project,
    source: &[u8],
    place: &Place,
) -> Result<String, NoMemory>
    requires { LiesWithin source.now place.now }
    ensures { IfOk result (λ text. string_bytes text ≡ place_text (files_with project.now source.now) place.now) }
{
    match place {
        Place::Source(span) => {
            let at = span.start as usize;
            let row = line_at(source, at);
            let column = column_at(source, at);
            place_in_text(alloc, project.file.as_str(), row, column)
        }
        Place::Cell { row, column } => place_in_text(
            alloc,
            project.catalogue.as_str(),
            *row as usize,
            *column as usize,
        ),
        Place::Word(word) => word_text(alloc, *word),
    }
}

/// A second place behind the first, where there is one.
#[tactic(auto, unfolding(crate::specs::Texts::also_text))]
fn also_text(
    alloc: Global,
    project: &Project,
    source: &[u8],
    other: &Option<Place>,
) -> Result<String, NoMemory>
    requires { IfSome other.now (LiesWithin source.now) }
    ensures { IfOk result (λ text. string_bytes text ≡ also_text (files_with project.now source.now) other.now) }
{
    match other {
        None => Ok(String::new(alloc)),
        Some(place) => {
            let place = place_text(alloc, project, source, place)?;
            let place = place.as_str();
            Ok(format!(in alloc; " also {place}")?)
        }
    }
}

/// The line of a fault.
#[tactic(auto, unfolding(crate::specs::Texts::fault_text))]
pub(crate) fn fault_text(
    alloc: Global,
    project: &Project,
    source: &[u8],
    fault: &Fault,
) -> Result<String, NoMemory>
    requires at { LiesWithin source.now fault.now.at }
    requires other { IfSome fault.now.other (LiesWithin source.now) }
    requires path { fault.now.path ≡ [] }
    ensures { IfOk result (λ text. string_bytes text ≡ fault_text (files_with project.now source.now) fault.now) }
{
    let number = fault.kind.number();
    let name = fault.kind.name();
    let place = place_text(alloc, project, source, &fault.at)?;
    let place = place.as_str();
    let also = also_text(alloc, project, source, &fault.other)?;
    let also = also.as_str();
    Ok(format!(in alloc; "fault F{number} {name} {place}{also}\n")?)
}

/// The lines for a verdict and the sizes of its net list.
#[tactic(auto, unfolding(crate::specs::Texts::verdict_text))]
fn verdict_text(alloc: Global, verdict: &str, list: &NetList) -> Result<String, NoMemory>
    ensures { IfOk result (λ text. string_bytes text ≡ verdict_text verdict.now list.now) }
{
    let nets = list.nets.len();
    let parts = list.comps.len();
    Ok(format!(in alloc; "result {verdict}\nnets {nets}\nparts {parts}\n")?)
}

/// The lines for the sizes of a problem and of its certificate. Each slot has one variable and one check.
#[tactic(auto, unfolding(crate::specs::Texts::problem_text))]
fn problem_text(alloc: Global, slots: usize, nodes: u32) -> Result<String, NoMemory>
    ensures { IfOk result (λ text. string_bytes text ≡ problem_text slots nodes) }
{
    Ok(format!(in alloc;
        "slots {slots}\nvariables {slots}\nchecks {slots}\ngiven 0\nnodes {nodes}\n"
    )?)
}

/// The lines for what was decided.
#[tactic(auto, unfolding(crate::specs::Texts::summary_text))]
pub(crate) fn summary_text(
    alloc: Global,
    verdict: &str,
    list: &NetList,
    slots: usize,
    nodes: u32,
) -> Result<String, NoMemory>
    ensures { IfOk result (λ text. string_bytes text ≡ summary_text verdict.now list.now slots nodes) }
{
    let mut text = verdict_text(alloc, verdict, list)?;
    let sizes = problem_text(alloc, slots, nodes)?;
    text.push_str(sizes.as_str())?;
    Ok(text)
}

/// The line for a file that could not be read.
#[tactic(auto, unfolding(crate::specs::Texts::read_fault_text))]
pub(crate) fn read_fault_text(alloc: Global, file: &str) -> Result<String, NoMemory>
    ensures { IfOk result (λ text. string_bytes text ≡ read_fault_text file.now) }
{
    Ok(format!(in alloc; "read fault {file}\n")?)
}

/// The line for a valid certificate with this verdict.
#[tactic(auto, unfolding(crate::specs::Texts::accepted_text))]
pub(crate) fn accepted_text(alloc: Global, verdict: &str) -> Result<String, NoMemory>
    ensures { IfOk result (λ text. string_bytes text ≡ accepted_text verdict.now) }
{
    Ok(format!(in alloc; "accepted {verdict}\n")?)
}

/// The line for bytes that are no valid certificate, with their first bad line.
#[tactic(auto, unfolding(crate::specs::Texts::rejected_text))]
pub(crate) fn rejected_text(alloc: Global, line: u32) -> Result<String, NoMemory>
    ensures { IfOk result (λ text. string_bytes text ≡ rejected_text line) }
{
    Ok(format!(in alloc; "rejected line {line}\n")?)
}

/// How the program is called.
const USAGE: &str =
    "usage: ato build ENTRY CATALOGUE [--steps N] [--out NAME]\n       ato check ENTRY CATALOGUE CERT\n";

/// The lines for words that are no job.
pub(crate) fn usage_text(alloc: Global) -> Result<String, NoMemory>
    ensures { IfOk result (λ text. string_bytes text ≡ usage_text) }
{
    Ok(String::from_str(alloc, USAGE)?)
}
