//! The program `ato_catalogues`: for each file that it is given, how many attribute columns and rows it
//! has as a catalogue, or its first fault.
#![tactic(auto)]

use ato_base::{Fault, NoMemory, Place, Refusal};
use ato_catalog::read_catalog;
use std::alloc::Global;
use std::{env, fs, io};

/// The most bytes of a catalogue.
const LIMIT: usize = 16_777_216;

/// What is printed of a fault.
fn fault_text(alloc: Global, fault: &Fault) -> Result<String, NoMemory> {
    let (number, name) = (fault.kind.number(), fault.kind.name());
    match fault.at {
        Place::Cell { row, column } => {
            Ok(format!(in alloc; "fault F{number} {name} {row}:{column}")?)
        }
        _ => Ok(format!(in alloc; "fault F{number} {name}")?),
    }
}

/// What is printed of the bytes of a file.
fn answer(alloc: Global, bytes: &[u8]) -> Result<String, NoMemory> {
    if bytes.len() > LIMIT {
        return Ok(String::from_str(alloc, "too long")?);
    }
    match read_catalog(alloc, bytes) {
        Ok(catalog) => {
            let (columns, rows) = (catalog.columns.len(), catalog.rows.len());
            Ok(format!(in alloc; "columns {columns} rows {rows}")?)
        }
        Err(Refusal::Fault(fault)) => fault_text(alloc, &fault),
        Err(Refusal::NoMemory) => Err(NoMemory),
    }
}

fn main(rt: HostRuntime) -> io::Result<()> {
    for name in env::args(&rt)?.skip(1) {
        let bytes = fs::read(&rt, name.as_str())?;
        match answer(rt.alloc(), bytes.as_slice()) {
            Ok(text) => println!(rt; "{text}")?,
            Err(NoMemory) => println!(rt; "out of memory")?,
        }
    }
    Ok(())
}
