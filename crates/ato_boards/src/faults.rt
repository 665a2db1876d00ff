//! What is printed of faults.
use ato_base::{Fault, Name, NameTable, NoMemory, Place};
use ato_files::Program;
use std::alloc::Global;

/// What is printed of a place.
fn place_text(alloc: Global, at: Place) -> Result<String, NoMemory> {
    match at {
        Place::Source(span) => {
            let (file, start, end) = (span.file.0, span.start, span.end);
            Ok(format!(in alloc; "{file}:{start}..{end}")?)
        }
        Place::Word(word) => Ok(format!(in alloc; "word {word}")?),
        Place::Cell { row, column } => Ok(format!(in alloc; "row {row} column {column}")?),
    }
}

/// A fault and its place.
fn place_line(alloc: Global, fault: &Fault) -> Result<String, NoMemory> {
    let place = place_text(alloc, fault.at)?;
    let (number, name) = (fault.kind.number(), fault.kind.name());
    Ok(format!(in alloc; "fault F{number} {name} {}", place.as_str())?)
}

/// What is printed of a fault of files or names.
pub(crate) fn fault_text(alloc: Global, fault: &Fault) -> Result<String, NoMemory> {
    let mut out = place_line(alloc, fault)?;
    out.push_str("\n")?;
    Ok(out)
}

/// Puts the path of an instance behind a text.
fn push_path(out: &mut String, names: &NameTable, path: &[Name]) -> Result<(), NoMemory> {
    let mut before = " in ";
    for name in path {
        out.push_str(before)?;
        out.push_str(names.text(*name).unwrap_or("?"))?;
        before = ".";
    }
    Ok(())
}

/// What is printed of a fault of a program's tree, of its paths or links.
pub(crate) fn instance_fault(
    alloc: Global,
    program: &Program,
    fault: &Fault,
) -> Result<String, NoMemory> {
    let mut out = place_line(alloc, fault)?;
    push_path(&mut out, &program.names, fault.path.as_slice())?;
    out.push_str("\n")?;
    Ok(out)
}
