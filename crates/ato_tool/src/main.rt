//! The program `ato`: the top call over the current folder and standard output.
#![tactic(auto)]

use ato_build::run;
use ato_outside::{DirShelf, DirTray, OutSink};
use std::process::ExitCode;
use std::{env, io};

/// The status code where memory ran out.
const NO_MEMORY: u8 = 8;

/// The status code where a word is not UTF-8.
const NOT_UTF8: u8 = 12;

/// The words after the program's name, or the code to end with.
fn words(rt: &HostRuntime) -> Result<Vec<String>, u8> {
    let args = match env::args(rt) {
        Ok(args) => args,
        Err(error) => return Err(code_of(error.kind())),
    };
    let mut words = Vec::new(rt.alloc());
    for word in args.skip(1) {
        if words.push(word).is_err() {
            return Err(NO_MEMORY);
        }
    }
    Ok(words)
}

/// The code to end with where the words could not be read.
fn code_of(kind: io::ErrorKind) -> u8 {
    if kind == io::ErrorKind::OutOfMemory {
        NO_MEMORY
    } else {
        NOT_UTF8
    }
}

fn main(rt: HostRuntime) -> ExitCode {
    match words(&rt) {
        Err(code) => ExitCode::from(code),
        Ok(words) => {
            let mut shelf = DirShelf::new(&rt, "");
            let mut tray = DirTray::new(rt.alloc(), &rt, "");
            let mut out = OutSink::new(&rt);
            let status = run(rt.alloc(), &words, &mut shelf, &mut tray, &mut out);
            ExitCode::from(status.code())
        }
    }
}
