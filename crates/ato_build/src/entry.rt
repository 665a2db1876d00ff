//! The source of the entry file as a block, or its first fault.
ghost use Rattle.std.specs.Prelude.{◌≡◌, ◌≤◌, ◌<◌, ◌^◌, IfOk, IfErr, MatchOption, length};
ghost use Rattle.ato_first.specs.FirstForm.{block_text, IsFront};
ghost use Rattle.ato_first.specs.FirstPoints.{AreKnown};
ghost use Rattle.ato_first.specs.FirstParts.{HasRanges};
ghost use Rattle.ato_build.specs.Found.{Whole};
ghost use Rattle.ato_build.specs.Entry.{word_fault, line_fault, source_limit, GivesBlock, IsLineFault, IsEntryRefusal};

use crate::project::Project;
use ato_base::{Fault, FaultKind, FileId, List, NameTable, NoMemory, Place, Refusal, Span};
use ato_first::{Block, empty_line, lex, read_block, unknown_line};
use std::alloc::Global;

/// The number of the entry file.
const ENTRY_FILE: FileId = FileId(1);

/// A fault at a word of the command line.
pub(crate) fn word_fault(alloc: Global, kind: FaultKind, word: u32) -> Fault
    ensures { result ≡ word_fault kind word }
{
    Fault {
        kind,
        at: Place::Word(word),
        other: None,
        path: List::new(alloc),
    }
}

/// A fault in the line at a byte of the entry file.
fn line_fault(alloc: Global, kind: FaultKind, at: u32) -> Fault
    ensures { result ≡ line_fault kind at }
{
    Fault {
        kind,
        at: Place::Source(Span {
            file: ENTRY_FILE,
            start: at,
            end: at,
        }),
        other: None,
        path: List::new(alloc),
    }
}

/// The first fault in the lines of a block, if there is one.
fn first_fault(alloc: Global, block: &Block) -> Result<Option<Fault>, NoMemory>
    requires front { IsFront block.now }
    requires size { length (block_text block.now) < 2 ^ 32 }
    ensures { IfOk result (λ found. MatchOption found (AreKnown block.now × HasRanges block.now) (IsLineFault block.now)) }
{
    if let Some(at) = unknown_line(alloc, block)? {
        return Ok(Some(line_fault(alloc, FaultKind::NoSuchMember, at)));
    }
    match empty_line(block) {
        None => Ok(None),
        Some(at) => Ok(Some(line_fault(alloc, FaultKind::EmptyRange, at))),
    }
}

/// The block that a project names, in the source of its entry file.
pub(crate) fn block_of(alloc: Global, project: &Project, source: &[u8]) -> Result<Block, Refusal>
    requires { length source.now ≤ source_limit }
    ensures gives { IfOk result (GivesBlock project.now (Whole source.now)) }
    ensures refused { IfErr result (IsEntryRefusal project.now (Whole source.now)) }
{
    let mut names = NameTable::new(alloc)?;
    let tokens = lex(alloc, source, ENTRY_FILE, &mut names)?;
    let Some(block) = read_block(alloc, source, tokens.as_slice())? else {
        return Err(Refusal::Fault(word_fault(alloc, FaultKind::NameUnknown, 1)));
    };
    if block.name.as_str() != project.block.as_str() {
        return Err(Refusal::Fault(word_fault(alloc, FaultKind::NameUnknown, 1)));
    }
    match first_fault(alloc, &block)? {
        None => Ok(block),
        Some(fault) => Err(Refusal::Fault(fault)),
    }
}
