//! The program `ato_enclosures`: reads tables of operations from the files that it is given, and prints how relations are judged.
//!
//! A line `table` begins a table, and a line with the name of an operation and the numbers of its children puts a node in. `over` is followed by
//! the ranges of the variables, `within` by a node and the ranges of a target, `less`, `less_or_equal` and `equal` by two nodes, and `defined`
//! by one. These five print the judgement of the relation, and what is found at a corner, with `^` for each variable whose upper end is taken
//! there and `_` for each other. `times` says how often the next relations are to be judged.
#![tactic(auto)]

mod judging;
mod reading;
mod session;

use ato_base::NoMemory;
use session::{Session, Stop};
use std::{env, fs, io};

/// Carries out the lines of a text. An answer is the text that is printed.
fn carried_out(session: &mut Session, text: &str, out: &mut String) -> Result<(), Stop> {
    for line in text.lines() {
        session.line(line, out)?;
    }
    Ok(())
}

fn main(rt: HostRuntime) -> io::Result<()> {
    for name in env::args(&rt)?.skip(1) {
        let text = fs::read_to_string(&rt, name.as_str())?;
        let mut out = String::new(rt.alloc());
        let mut session = Session::new(rt.alloc());
        let done = carried_out(&mut session, text.as_str(), &mut out);
        print!(rt; "{out}")?;
        match done {
            Ok(()) => (),
            Err(Stop::Form) => println!(rt; "a line has no meaning")?,
            Err(Stop::NoMemory) => println!(rt; "out of memory")?,
        }
    }
    Ok(())
}
