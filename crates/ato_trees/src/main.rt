//! The program `ato_trees`: for each file that it is given, how many items it has, or its first fault.
#![tactic(auto)]

use ato_base::{Fault, FileId, NameTable, NoMemory, Place, Refusal};
use ato_lexer::lex;
use ato_parser::{ends_once, parse};
use std::alloc::Global;
use std::{env, fs, io};

/// The most bytes of a source file.
const LIMIT: usize = 262_144;

/// What is printed of a fault.
fn fault_text(alloc: Global, fault: &Fault) -> Result<String, NoMemory> {
    let (number, name) = (fault.kind.number(), fault.kind.name());
    match fault.at {
        Place::Source(span) => {
            Ok(format!(in alloc; "fault F{number} {name} {}..{}", span.start, span.end)?)
        }
        _ => Ok(format!(in alloc; "fault F{number} {name}")?),
    }
}

/// What is found in the bytes of a file.
enum Found {
    /// A tree of so many items.
    Items(usize),
    /// The file is longer than a source file may be.
    TooLong,
    /// END is not the one last token, as the lexer always has it.
    NoEnd,
}

/// Reads the bytes of a file.
fn read(alloc: Global, bytes: &[u8]) -> Result<Found, Refusal> {
    if bytes.len() > LIMIT {
        return Ok(Found::TooLong);
    }
    let mut names = NameTable::new(alloc)?;
    let tokens = lex(alloc, bytes, FileId(1), &mut names)?;
    if !ends_once(tokens.as_slice()) {
        return Ok(Found::NoEnd);
    }
    let file = parse(alloc, tokens.as_slice())?;
    Ok(Found::Items(file.items.len()))
}

/// What is printed of the bytes of a file.
fn answer(alloc: Global, bytes: &[u8]) -> Result<String, NoMemory> {
    match read(alloc, bytes) {
        Ok(Found::Items(number)) => Ok(format!(in alloc; "items {number}")?),
        Ok(Found::TooLong) => Ok(String::from_str(alloc, "too long")?),
        Ok(Found::NoEnd) => Ok(String::from_str(alloc, "no end")?),
        Err(Refusal::Fault(fault)) => fault_text(alloc, &fault),
        Err(Refusal::NoMemory) => Err(NoMemory),
    }
}

fn main(rt: HostRuntime) -> io::Result<()> {
    for name in env::args(&rt)?.skip(1) {
        let bytes = fs::read(&rt, name.as_str())?;
        match answer(rt.alloc(), bytes.as_slice()) {
            Ok(text) => println!(rt; "{text}")?,
            Err(NoMemory) => println!(rt; "out of memory")?,
        }
    }
    Ok(())
}
