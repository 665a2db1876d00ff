//! The program `ato_instances`: for each entry file of the current folder that it is given, how many nodes, occurrences and assignments the tree
//! of its block `Top` has, or the first fault of the project, of the tree or of its paths.
#![tactic(auto)]

ghost use Rattle.ato_instance_tree.specs.Elaborated.{IsLoaded};

use ato_base::{Fault, Name, NameTable, NoMemory, Place, Refusal};
use ato_elab::elaborate;
use ato_files::{LoadFault, Program, load};
use ato_instance_tree::Tree;
use ato_outside::DirShelf;
use std::alloc::Global;
use std::{env, io};

/// What is printed of a place.
fn place_text(alloc: Global, at: Place) -> Result<String, NoMemory> {
    match at {
        Place::Source(span) => {
            let (file, start, end) = (span.file.0, span.start, span.end);
            Ok(format!(in alloc; "{file}:{start}..{end}")?)
        }
        Place::Word(word) => Ok(format!(in alloc; "word {word}")?),
        Place::Cell { row, column } => Ok(format!(in alloc; "row {row} column {column}")?),
    }
}

/// What is printed of a fault, without the path of its instance.
fn fault_text(alloc: Global, fault: &Fault) -> Result<String, NoMemory> {
    let place = place_text(alloc, fault.at)?;
    let (number, name) = (fault.kind.number(), fault.kind.name());
    Ok(format!(in alloc; "fault F{number} {name} {}", place.as_str())?)
}

/// Puts the path of an instance behind a text.
fn push_path(out: &mut String, names: &NameTable, path: &[Name]) -> Result<(), NoMemory> {
    let mut before = " in ";
    for name in path {
        out.push_str(before)?;
        out.push_str(names.text(*name).unwrap_or("?"))?;
        before = ".";
    }
    Ok(())
}

/// What is printed of a fault of a program's tree.
fn tree_fault(alloc: Global, program: &Program, fault: &Fault) -> Result<String, NoMemory> {
    let mut out = fault_text(alloc, fault)?;
    push_path(&mut out, &program.names, fault.path.as_slice())?;
    Ok(out)
}

/// What is printed of a tree.
fn tree_text(alloc: Global, program: &Program, tree: &Tree) -> Result<String, NoMemory> {
    if let Some(late) = &tree.first {
        return tree_fault(alloc, program, &late.fault);
    }
    let (nodes, occurrences) = (tree.nodes.len(), tree.occurrences.len());
    let assigned = tree.effective.len();
    Ok(format!(in alloc; "nodes {nodes} occurrences {occurrences} assigned {assigned}")?)
}

/// What is printed of the tree of a program.
fn told(alloc: Global, program: &Program) -> Result<String, NoMemory>
    requires { IsLoaded program.now }
{
    match elaborate(alloc, program, "Top") {
        Ok(tree) => tree_text(alloc, program, &tree),
        Err(Refusal::Fault(fault)) => tree_fault(alloc, program, &fault),
        Err(Refusal::NoMemory) => Err(NoMemory),
    }
}

/// What is printed of the project of an entry file.
#[tactic(auto, using(crate::proofs::LoadedLaws::is_loaded))]
fn answer(rt: &HostRuntime, entry: &str) -> Result<String, NoMemory> {
    let alloc = rt.alloc();
    let mut shelf = DirShelf::new(rt, "");
    match load(alloc, &mut shelf, entry) {
        Ok(program) => told(alloc, &program),
        Err(LoadFault::Fault(fault, _)) => fault_text(alloc, &fault),
        Err(LoadFault::Read(name)) => Ok(format!(in alloc; "read fault {}", name.as_str())?),
        Err(LoadFault::NoMemory) => Err(NoMemory),
    }
}

fn main(rt: HostRuntime) -> io::Result<()> {
    for entry in env::args(&rt)?.skip(1) {
        match answer(&rt, entry.as_str()) {
            Ok(text) => println!(rt; "{text}")?,
            Err(NoMemory) => println!(rt; "out of memory")?,
        }
    }
    Ok(())
}
