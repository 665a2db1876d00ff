//! The program `ato_boards`: for each entry file of the current folder that it is given, how many parts, nets and pins of nets its block `Top`
//! has, or the first fault of the project, of the tree or of its paths and links. After the word `texts` it prints the netlists and the parts
//! lists themselves.
#![tactic(auto)]

mod faults;

ghost use Rattle.std.specs.Prelude.{IfOk};
ghost use Rattle.ato_instance_tree.specs.Elaborated.{IsLoaded};

use ato_base::{NetList, NoMemory, PartRow, Refusal};
use ato_connections::joined;
use ato_elab::elaborate;
use ato_files::{LoadFault, Program, load};
use ato_netlists::{netlist, part_rows};
use ato_outside::DirShelf;
use ato_writers::{net_text, parts_text};
use faults::{fault_text, instance_fault};
use std::alloc::Global;
use std::{env, io};

/// What is printed of a board.
#[derive(Clone, Copy, Debug, PartialEq, Eq)]
enum Print {
    /// How many parts, nets and pins there are.
    Counts,
    /// The netlist and the parts list.
    Texts,
}

/// How many parts, nets and pins of nets there are.
fn counts(alloc: Global, list: &NetList) -> Result<String, NoMemory> {
    let pins: usize = list
        .nets
        .as_slice()
        .iter()
        .fold(0, |sum, net| sum.saturating_add(net.pins.len()));
    let (parts, nets) = (list.comps.len(), list.nets.len());
    Ok(format!(in alloc; "parts {parts} nets {nets} pins {pins}\n")?)
}

/// Puts bytes, which are a text, behind others.
fn push_bytes(out: &mut String, bytes: &[u8]) -> Result<(), NoMemory> {
    match std::str::from_utf8(bytes) {
        Ok(text) => Ok(out.push_str(text)?),
        Err(_) => Ok(()),
    }
}

/// The netlist and the parts list.
fn texts(alloc: Global, list: &NetList, rows: &[PartRow]) -> Result<String, NoMemory> {
    let mut out = String::new(alloc);
    push_bytes(&mut out, net_text(alloc, list)?.as_slice())?;
    push_bytes(&mut out, parts_text(alloc, rows)?.as_slice())?;
    Ok(out)
}

/// What is printed of the board of a program.
fn board(alloc: Global, program: &Program, print: Print) -> Result<String, Refusal>
    requires { IsLoaded program.now }
{
    let tree = elaborate(alloc, program, "Top")?;
    let classes = joined(alloc, program, &tree)?;
    let rows = part_rows(alloc, program, &tree)?;
    let list = netlist(alloc, program, &tree, &classes, rows.as_slice())?;
    match print {
        Print::Counts => Ok(counts(alloc, &list)?),
        Print::Texts => Ok(texts(alloc, &list, rows.as_slice())?),
    }
}

/// The same, or what is printed of its fault.
fn told(alloc: Global, program: &Program, print: Print) -> Result<String, NoMemory>
    requires { IsLoaded program.now }
{
    match board(alloc, program, print) {
        Ok(text) => Ok(text),
        Err(Refusal::Fault(fault)) => instance_fault(alloc, program, &fault),
        Err(Refusal::NoMemory) => Err(NoMemory),
    }
}

/// What is printed of the project of an entry file.
fn answer(rt: &HostRuntime, entry: &str, print: Print) -> Result<String, NoMemory> {
    let alloc = rt.alloc();
    let mut shelf = DirShelf::new(rt, "");
    match load(alloc, &mut shelf, entry) {
        Ok(program) => told(alloc, &program, print),
        Err(LoadFault::Fault(fault, _)) => fault_text(alloc, &fault),
        Err(LoadFault::Read(name)) => Ok(format!(in alloc; "read fault {}\n", name.as_str())?),
        Err(LoadFault::NoMemory) => Err(NoMemory),
    }
}

fn main(rt: HostRuntime) -> io::Result<()> {
    let mut print = Print::Counts;
    for word in env::args(&rt)?.skip(1) {
        if word.as_str() == "texts" {
            print = Print::Texts;
            continue;
        }
        match answer(&rt, word.as_str(), print) {
            Ok(text) => print!(rt; "{text}")?,
            Err(NoMemory) => println!(rt; "out of memory")?,
        }
    }
    Ok(())
}
