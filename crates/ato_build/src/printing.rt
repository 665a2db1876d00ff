ghost use Rattle.std.specs.Prelude.{◌≡◌, ◌≤◌, ◌++◌, true, false, codes};
ghost use Rattle.ato_outside.specs.Causes.{Rose};
ghost use Rattle.ato_build.specs.Printing.{Prints};
ghost use Rattle.ato_build.specs.Texts.{write_fault_text, said_text};

use crate::answer::Said;
use ato_outside::Sink;

/// Writes all of a text, and answers whether the sink took it.
pub(crate) fn print<O: Sink>(out: &mut O, text: &[u8]) -> bool
    ensures told { Prints (O.written out.old) (O.written out.new) text.now result }
    ensures later { O.faults out.old ≤ O.faults out.new }
    ensures whole { result ≡ true → O.faults out.new ≤ O.faults out.old }
    ensures failed { result ≡ false → Rose (O.faults out.old) (O.faults out.new) }
{
    let mut at = 0;
    while at < text.len() {
        match out.write(&text[at..]) {
            Ok(count) => {
                if count == 0 {
                    return false;
                }
                at += count;
            }
            Err(_) => return false,
        }
    }
    true
}

/// Writes the line for a file that could not be put. It takes no memory.
fn print_write_fault<O: Sink>(out: &mut O, file: &str) -> bool
    ensures told { Prints (O.written out.old) (O.written out.new) (write_fault_text file.now) result }
    ensures later { O.faults out.old ≤ O.faults out.new }
    ensures whole { result ≡ true → O.faults out.new ≤ O.faults out.old }
    ensures failed { result ≡ false → Rose (O.faults out.old) (O.faults out.new) }
{
    if !print(out, b"write fault ") {
        return false;
    }
    if !print(out, file.as_bytes()) {
        return false;
    }
    print(out, b"\n")
}

/// Writes what is said, and answers whether the sink took it. It takes no memory.
pub(crate) fn say<O: Sink>(out: &mut O, said: &Said) -> bool
    ensures told { Prints (O.written out.old) (O.written out.new) (said_text said.now) result }
    ensures later { O.faults out.old ≤ O.faults out.new }
    ensures whole { result ≡ true → O.faults out.new ≤ O.faults out.old }
    ensures failed { result ≡ false → Rose (O.faults out.old) (O.faults out.new) }
{
    match said {
        Said::Text(text) => print(out, text.as_bytes()),
        Said::OutOfMemory => print(out, b"out of memory\n"),
        Said::WriteFault(file) => print_write_fault(out, file.as_str()),
    }
}
