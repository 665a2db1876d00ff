ghost use Rattle.std.specs.Prelude.{◌≡◌, ◌≤◌, IfOk, length};

use crate::{Sink, SinkFailed};
use std::io::{ErrorKind, Print};
use std::marker::Model;

/// Standard output, of whose bytes it tells nothing.
///
/// Contracts see it as its count of faults.
#[derive(Drop)]
pub struct OutSink<'a, R: Print> {
    rt: &'a R,
    faults: u64,
}

impl<'a, R: Print> Model for OutSink<'a, R> {
    ghost use Rattle.std.specs.Prelude.{ℕ};

    ghost Value = { ℕ };

    ghost view = { λ it. it.faults };
}

impl<'a, R: Print> OutSink<'a, R> {
    /// The sink of standard output. It takes no memory and prints nothing.
    pub fn new(rt: &'a R) -> OutSink<'a, R>
        ensures { result ≡ 0 }
    {
        OutSink { rt, faults: 0 }
    }

    /// How many calls failed or took nothing of a piece.
    pub fn faults(&self) -> u64
        ensures { result ≡ self.now }
    {
        self.faults
    }
}

/// Prints the first bytes of a piece. A write that was interrupted is tried again.
fn print_some<R: Print>(rt: &R, piece: &[u8]) -> Result<usize, SinkFailed>
    ensures { IfOk result (λ n. n ≤ length piece.now) }
{
    for _ in 0..u64::MAX {
        match rt.write_some(piece) {
            Ok(count) => return Ok(count),
            Err(error) => {
                if error.kind() != ErrorKind::Interrupted {
                    return Err(SinkFailed);
                }
            }
        }
    }
    Err(SinkFailed)
}

impl<'a, R: Print> Sink for OutSink<'a, R> {
    ghost use Rattle.std.specs.Prelude.{None};

    ghost written = { λ _. None };

    ghost faults = { λ s. s };

    fn write(&mut self, piece: &[u8]) -> Result<usize, SinkFailed> {
        match print_some(self.rt, piece) {
            Ok(count) => {
                if count == 0 && piece.len() > 0 {
                    self.faults = self.faults.saturating_add(1);
                }
                Ok(count)
            }
            Err(_) => {
                self.faults = self.faults.saturating_add(1);
                Err(SinkFailed)
            }
        }
    }
}
