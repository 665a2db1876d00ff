//! The program `ato_projects`: for each entry file of the current folder that it is given, how many files and blocks the project has,
//! or its first fault.
#![tactic(auto)]

use ato_base::{Fault, NoMemory, Place};
use ato_files::{LoadFault, load};
use ato_outside::DirShelf;
use std::alloc::Global;
use std::{env, io};

/// What is printed of a fault.
fn fault_text(alloc: Global, fault: &Fault) -> Result<String, NoMemory> {
    let (number, name) = (fault.kind.number(), fault.kind.name());
    match fault.at {
        Place::Source(span) => {
            let (file, start, end) = (span.file.0, span.start, span.end);
            Ok(format!(in alloc; "fault F{number} {name} {file}:{start}..{end}")?)
        }
        Place::Word(word) => Ok(format!(in alloc; "fault F{number} {name} word {word}")?),
        Place::Cell { .. } => Ok(format!(in alloc; "fault F{number} {name}")?),
    }
}

/// What is printed of the project of an entry file.
fn answer(rt: &HostRuntime, entry: &str) -> Result<String, NoMemory> {
    let alloc = rt.alloc();
    let mut shelf = DirShelf::new(rt, "");
    match load(alloc, &mut shelf, entry) {
        Ok(program) => {
            let (files, blocks) = (program.files.len(), program.blocks.len());
            Ok(format!(in alloc; "files {files} blocks {blocks}")?)
        }
        Err(LoadFault::Fault(fault, _)) => fault_text(alloc, &fault),
        Err(LoadFault::Read(name)) => Ok(format!(in alloc; "read fault {}", name.as_str())?),
        Err(LoadFault::NoMemory) => Err(NoMemory),
    }
}

fn main(rt: HostRuntime) -> io::Result<()> {
    for entry in env::args(&rt)?.skip(1) {
        match answer(&rt, entry.as_str()) {
            Ok(text) => println!(rt; "{text}")?,
            Err(NoMemory) => println!(rt; "out of memory")?,
        }
    }
    Ok(())
}
