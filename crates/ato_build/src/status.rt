ghost use Rattle.std.specs.Prelude.{◌≡◌};
ghost use Rattle.ato_build.specs.Status.{code_of};

use ato_base::Fault;

/// How a run ended.
#[derive(Debug, Drop)]
pub enum Status {
    /// A good pick was found. The netlist with it and its certificate stand in the tray.
    Built,
    /// The certificate is valid.
    Accepted,
    /// A fault stands in the input.
    Fault(Fault),
    /// No pick is good. The certificate of this stands in the tray.
    Refuted,
    /// A file could not be read.
    ReadFault,
    /// A file could not be put, or a text could not be printed.
    WriteFault,
    /// The words are no job.
    Usage,
    /// Memory ran out.
    NoMemory,
    /// The bytes are no valid certificate. The number is that of their first bad line, from 1.
    Rejected(u32),
}

impl Status {
    /// The status code with which the program ends.
    pub fn code(&self) -> u8
        ensures { result ≡ code_of self.now }
    {
        match self {
            Status::Built => 0,
            Status::Accepted => 0,
            Status::Fault(_) => 1,
            Status::Refuted => 2,
            Status::ReadFault => 5,
            Status::WriteFault => 6,
            Status::Usage => 7,
            Status::NoMemory => 8,
            Status::Rejected(_) => 9,
        }
    }
}
