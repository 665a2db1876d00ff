//! The program `ato_tokens`: for each file that it is given, how many tokens it has, or its first fault.
#![tactic(auto)]

use ato_base::{Fault, FileId, NameTable, NoMemory, Place, Refusal};
use ato_lexer::lex;
use std::alloc::Global;
use std::{env, fs, io};

/// The most bytes of a source file.
const LIMIT: usize = 262_144;

/// What is printed of a fault.
fn fault_text(alloc: Global, fault: &Fault) -> Result<String, NoMemory> {
    let (number, name) = (fault.kind.number(), fault.kind.name());
    match fault.at {
        Place::Source(span) => {
            Ok(format!(in alloc; "fault F{number} {name} {}..{}", span.start, span.end)?)
        }
        _ => Ok(format!(in alloc; "fault F{number} {name}")?),
    }
}

/// What is printed of the bytes of a file.
fn answer(alloc: Global, bytes: &[u8]) -> Result<String, NoMemory> {
    if bytes.len() > LIMIT {
        return Ok(String::from_str(alloc, "too long")?);
    }
    let mut names = NameTable::new(alloc)?;
    match lex(alloc, bytes, FileId(1), &mut names) {
        Ok(tokens) => Ok(format!(in alloc; "tokens {}", tokens.len())?),
        Err(Refusal::Fault(fault)) => fault_text(alloc, &fault),
        Err(Refusal::NoMemory) => Err(NoMemory),
    }
}

fn main(rt: HostRuntime) -> io::Result<()> {
    for name in env::args(&rt)?.skip(1) {
        let bytes = fs::read(&rt, name.as_str())?;
        match answer(rt.alloc(), bytes.as_slice()) {
            Ok(text) => println!(rt; "{text}")?,
            Err(NoMemory) => println!(rt; "out of memory")?,
        }
    }
    Ok(())
}
