//! The text of a certificate.
ghost use Rattle.std.specs.Prelude.{◌≡◌, ◌++◌, ◌<◌, ◌^◌, IfOk, OnOk, length, string_bytes};
ghost use Rattle.std.specs.List.{flat_map};
ghost use Rattle.ato_cert.specs.Texts.{number_word, fraction_word, empty_line, row_line, fails_line, tree_text, box_word, check_text, checks_text, pick_line, boxes_text, steps_line, proof_word, proof_text, heading_text};
ghost use Rattle.ato_cert.specs.Reading.{line_text};
ghost use Rattle.ato_cert.specs.Texts as spec;

use crate::line::Line;
use crate::{BoxTree, Cert, PickTree, Proof, Verdict};
use ato_base::{List, NoMemory};
use ato_frac::Frac;
use std::alloc::Global;

fn push(out: &mut Vec<u8>, piece: &str) -> Result<(), NoMemory>
    ensures { OnOk result (out.new.items ≡ out.old.items ++ piece.now) }
{
    out.extend_from_slice(piece.as_bytes())?;
    Ok(())
}

#[tactic(auto, unfolding(crate::specs::Texts::number_word))]
fn number_word(alloc: Global, number: u32) -> Result<String, NoMemory>
    ensures { IfOk result (λ text. string_bytes text ≡ number_word number) }
{
    Ok(format!(in alloc; " {number}")?)
}

#[tactic(auto, unfolding(crate::specs::Texts::fraction_word))]
fn fraction_word(alloc: Global, fraction: &Frac) -> Result<String, NoMemory>
    ensures { IfOk result (λ text. string_bytes text ≡ fraction_word fraction.now) }
{
    let numerator = fraction.numer();
    let denominator = fraction.denom();
    Ok(format!(in alloc; " {numerator}/{denominator}")?)
}

#[tactic(auto, unfolding(crate::specs::Texts::empty_line))]
fn empty_line(alloc: Global, slot: u32) -> Result<String, NoMemory>
    ensures { IfOk result (λ text. string_bytes text ≡ empty_line slot) }
{
    Ok(format!(in alloc; "empty {slot}\n")?)
}

#[tactic(auto, unfolding(crate::specs::Texts::row_line))]
fn row_line(alloc: Global, slot: u32, row: u32) -> Result<String, NoMemory>
    ensures { IfOk result (λ text. string_bytes text ≡ row_line slot row) }
{
    Ok(format!(in alloc; "row {slot} {row}\n")?)
}

fn push_numbers(alloc: Global, out: &mut Vec<u8>, numbers: &[u32]) -> Result<(), NoMemory>
    ensures { OnOk result (out.new.items ≡ out.old.items ++ flat_map number_word numbers.now) }
{
    for number in numbers {
        let word = number_word(alloc, *number)?;
        push(out, word.as_str())?;
    }
    Ok(())
}

fn push_fractions(alloc: Global, out: &mut Vec<u8>, fractions: &[Frac]) -> Result<(), NoMemory>
    ensures { OnOk result (out.new.items ≡ out.old.items ++ flat_map fraction_word fractions.now) }
{
    for fraction in fractions {
        let word = fraction_word(alloc, fraction)?;
        push(out, word.as_str())?;
    }
    Ok(())
}

#[tactic(auto, unfolding(crate::specs::Texts::fails_line))]
fn push_fails(alloc: Global, out: &mut Vec<u8>, check: u32, point: &[Frac]) -> Result<(), NoMemory>
    ensures { OnOk result (out.new.items ≡ out.old.items ++ fails_line check point.now) }
{
    push(out, "fails")?;
    let word = number_word(alloc, check)?;
    push(out, word.as_str())?;
    push_fractions(alloc, out, point)?;
    push(out, "\n")
}

/// The lines of a tree, each before those of the trees below it.
fn push_tree(alloc: Global, out: &mut Vec<u8>, tree: &PickTree) -> Result<(), NoMemory>
    ensures { OnOk result (out.new.items ≡ out.old.items ++ tree_text tree.now) }
{
    match tree {
        PickTree::Empty(slot) => {
            let line = empty_line(alloc, *slot)?;
            push(out, line.as_str())
        }
        PickTree::ByRow {
            slot,
            row,
            low,
            high,
        } => {
            let line = row_line(alloc, *slot, *row)?;
            push(out, line.as_str())?;
            push_tree(alloc, out, low.get())?;
            push_tree(alloc, out, high.get())
        }
        PickTree::Fails { check, point } => push_fails(alloc, out, *check, point.as_slice()),
    }
}

fn box_word(tree: BoxTree) -> &'static str
    ensures { result.now ≡ box_word tree }
{
    match tree {
        BoxTree::Holds => "holds",
    }
}

#[tactic(auto, unfolding(crate::specs::Texts::check_text))]
fn check_text(alloc: Global, check: usize, tree: BoxTree) -> Result<String, NoMemory>
    ensures { IfOk result (λ text. string_bytes text ≡ check_text check tree) }
{
    let word = box_word(tree);
    Ok(format!(in alloc; "check {check}\n{word}\n")?)
}

/// The checks of a pick, with numbers from 1 on.
fn push_checks(alloc: Global, out: &mut Vec<u8>, boxes: &[BoxTree]) -> Result<(), NoMemory>
    ensures { OnOk result (out.new.items ≡ out.old.items ++ checks_text 1 boxes.now) }
{
    for (at, tree) in boxes.iter().enumerate() {
        let text = check_text(alloc, at + 1, *tree)?;
        push(out, text.as_str())?;
    }
    Ok(())
}

/// The line with the numbers of a pick.
#[tactic(auto, unfolding(crate::specs::Texts::pick_line))]
pub(crate) fn push_pick(alloc: Global, out: &mut Vec<u8>, pick: &[u32]) -> Result<(), NoMemory>
    ensures { OnOk result (out.new.items ≡ out.old.items ++ pick_line pick.now) }
{
    push(out, "pick")?;
    push_numbers(alloc, out, pick)?;
    push(out, "\n")
}

#[tactic(auto, unfolding(crate::specs::Texts::boxes_text))]
fn push_boxes(alloc: Global, out: &mut Vec<u8>, boxes: &[BoxTree]) -> Result<(), NoMemory>
    ensures { OnOk result (out.new.items ≡ out.old.items ++ boxes_text boxes.now) }
{
    push_checks(alloc, out, boxes)?;
    push(out, "end\n")
}

/// The word of a verdict.
fn verdict_word(proof: &Proof) -> &'static str
    ensures { result.now ≡ proof_word proof.now }
{
    match proof {
        Proof::Built { .. } => "built",
        Proof::Tree {
            verdict: Verdict::Refuted,
            ..
        } => "refuted",
    }
}

#[tactic(auto, unfolding(crate::specs::Texts::heading_text))]
fn heading(alloc: Global, word: &str, steps: u32) -> Result<String, NoMemory>
    ensures { IfOk result (λ text. string_bytes text ≡ heading_text word.now steps) }
{
    Ok(format!(in alloc; "ato-certificate 1\nverdict {word}\nsteps {steps}\n")?)
}

fn push_proof(alloc: Global, out: &mut Vec<u8>, proof: &Proof) -> Result<(), NoMemory>
    ensures { OnOk result (out.new.items ≡ out.old.items ++ proof_text proof.now) }
{
    match proof {
        Proof::Built { pick, boxes } => {
            push_pick(alloc, out, pick.as_slice())?;
            push_boxes(alloc, out, boxes.as_slice())
        }
        Proof::Tree { tree, .. } => push_tree(alloc, out, tree),
    }
}

/// The text of a certificate, line by line, with a line end after each. The one error is want of memory.
pub fn cert_text(alloc: Global, cert: &Cert) -> Result<List<u8>, NoMemory>
    ensures { IfOk result (λ text. text ≡ spec.cert_text cert.now) }
{
    let heading = heading(alloc, verdict_word(&cert.proof), cert.steps)?;
    let mut out = Vec::new(alloc);
    push(&mut out, heading.as_str())?;
    push_proof(alloc, &mut out, &cert.proof)?;
    Ok(List::from_vec(out))
}

/// The line with the number of steps.
#[tactic(auto, unfolding(crate::specs::Texts::steps_line))]
pub(crate) fn steps_line(alloc: Global, steps: u32) -> Result<String, NoMemory>
    ensures { IfOk result (λ text. string_bytes text ≡ steps_line steps) }
{
    Ok(format!(in alloc; "steps {steps}\n")?)
}

/// The line of a tree, with its line end.
pub(crate) fn line_text(alloc: Global, line: &Line) -> Result<Vec<u8>, NoMemory>
    ensures { IfOk result (λ text. text.items ≡ line_text line.now) }
{
    let mut out = Vec::new(alloc);
    match line {
        Line::Empty(slot) => push(&mut out, empty_line(alloc, *slot)?.as_str())?,
        Line::Row(slot, row) => push(&mut out, row_line(alloc, *slot, *row)?.as_str())?,
        Line::Fails(check, point) => push_fails(alloc, &mut out, *check, point.as_slice())?,
    }
    Ok(out)
}
