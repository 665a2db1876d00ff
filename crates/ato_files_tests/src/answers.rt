//! What loading answers, in one line.
use crate::library::LIBRARY;
use crate::shelves::{Asked, files_of};
use ato_base::{Fault, List, NoMemory, Place, Text};
use ato_files::{BlockInfo, LoadFault, Program, Source, load};
use std::alloc::Global;

/// The name of the entry where a row gives none.
pub(crate) const ENTRY: &str = "main.ato";

/// What loading answers. It has no clause, so that what `load` promises is read here once and not in each test.
pub(crate) fn loaded(alloc: Global, shelf: &mut Asked, entry: &str) -> Result<Program, LoadFault> {
    load(alloc, shelf, entry)
}

/// A file that was read, with marks where it is not the one that was asked for, or does not hold what the shelf
/// holds. The library has no line of its own.
fn put_source(
    out: &mut String,
    alloc: Global,
    shelf: &mut Asked,
    number: usize,
    name: &str,
    bytes: &[u8],
) -> Result<(), NoMemory> {
    if number == 0 {
        let is_library = name == "<library>" && bytes == LIBRARY.as_bytes();
        out.push_str(if is_library { "" } else { " no library" })?;
        return Ok(());
    }
    write!(out, " {name}")?;
    if !shelf.holds(alloc, name, bytes)? {
        out.push_str("~")?;
    }
    match shelf.names().get(number - 1) {
        Some(asked) if asked.as_str() == name => {}
        _ => out.push_str("!")?,
    }
    Ok(())
}

/// The names that were asked for behind some, each with this behind it.
fn put_asked(out: &mut String, shelf: &Asked, from: usize, behind: &str) -> Result<(), NoMemory> {
    for (number, name) in shelf.names().iter().enumerate() {
        if number >= from {
            write!(out, " {}{behind}", name.as_str())?;
        }
    }
    if !shelf.is_limited() {
        out.push_str(" at another limit")?;
    }
    Ok(())
}

/// A block with its file, its item and its lineage.
pub(crate) fn put_block(out: &mut String, block: &BlockInfo) -> Result<(), NoMemory> {
    write!(out, " {}.{}", block.file.0, block.item)?;
    for (place, number) in block.lineage.as_slice().iter().enumerate() {
        out.push_str(if place == 0 { "(" } else { " " })?;
        write!(out, "{number}")?;
    }
    out.push_str(")")?;
    Ok(())
}

fn put_program(
    out: &mut String,
    alloc: Global,
    shelf: &mut Asked,
    program: &Program,
) -> Result<(), NoMemory> {
    out.push_str("good")?;
    let files = program.files.as_slice();
    for (number, file) in files.iter().enumerate() {
        let bytes = file.bytes.as_slice();
        put_source(out, alloc, shelf, number, file.name.as_str(), bytes)?;
    }
    put_asked(out, shelf, files.len().saturating_sub(1), "?")?;
    out.push_str(":")?;
    for block in program.blocks.as_slice() {
        if block.file.0 > 0 {
            put_block(out, block)?;
        }
    }
    Ok(())
}

fn put_place(out: &mut String, place: Place) -> Result<(), NoMemory> {
    match place {
        Place::Word(word) => write!(out, " word {word}")?,
        Place::Cell { row, column } => write!(out, " cell {row} {column}")?,
        Place::Source(at) => write!(out, " {}:{}..{}", at.file.0, at.start, at.end)?,
    }
    Ok(())
}

fn put_kind(out: &mut String, fault: &Fault) -> Result<(), NoMemory> {
    write!(out, "F{} {}", fault.kind.number(), fault.kind.name())?;
    put_place(out, fault.at)?;
    if fault.other.is_some() || !fault.path.is_empty() {
        out.push_str(" and more")?;
    }
    Ok(())
}

fn put_fault(
    out: &mut String,
    alloc: Global,
    shelf: &mut Asked,
    fault: &Fault,
    sources: &[Source],
) -> Result<(), NoMemory> {
    put_kind(out, fault)?;
    if sources.is_empty() {
        out.push_str(" no sources")?;
    }
    if shelf.names().len() > 0 {
        out.push_str(" of")?;
    }
    for (number, file) in sources.iter().enumerate() {
        let bytes = file.bytes.as_slice();
        put_source(out, alloc, shelf, number, file.name.as_str(), bytes)?;
    }
    put_asked(out, shelf, sources.len().saturating_sub(1), "?")
}

/// The line that tells what loading from a shelf answers.
pub(crate) fn told_of(alloc: Global, shelf: &mut Asked, entry: &str) -> Result<String, NoMemory> {
    let mut out = String::new(alloc);
    match loaded(alloc, shelf, entry) {
        Ok(program) => put_program(&mut out, alloc, shelf, &program)?,
        Err(LoadFault::Fault(fault, sources)) => {
            put_fault(&mut out, alloc, shelf, &fault, sources.as_slice())?;
        }
        Err(LoadFault::Read(name)) => {
            write!(out, "unread {} of", name.as_str())?;
            put_asked(&mut out, shelf, 0, "")?;
        }
        Err(LoadFault::NoMemory) => return Err(NoMemory),
    }
    Ok(out)
}

/// The same over files that are made.
pub(crate) fn told_over(
    alloc: Global,
    files: List<(Text, List<u8>)>,
    entry: &str,
) -> Result<String, NoMemory> {
    told_of(alloc, &mut Asked::new(alloc, files), entry)
}

/// The same over files of these texts.
pub(crate) fn told(alloc: Global, texts: &[(&str, &str)], entry: &str) -> Result<String, NoMemory> {
    told_over(alloc, files_of(alloc, texts)?, entry)
}

/// The same over the entry alone.
pub(crate) fn told_one(alloc: Global, text: &'static str) -> Result<String, NoMemory> {
    told(alloc, &[(ENTRY, text)], ENTRY)
}
