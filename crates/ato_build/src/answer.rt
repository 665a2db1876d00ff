use crate::Status;
use ato_base::Text;

/// What is printed at the end of a run.
#[derive(Debug, Drop)]
pub(crate) enum Said {
    /// A text that was made whole.
    Text(String),
    /// The line for want of memory.
    OutOfMemory,
    /// The line for a file that could not be put, with its name.
    WriteFault(Text),
}

/// How a run ends, unless its print fails.
#[derive(Debug, Drop)]
pub(crate) struct Answer {
    pub status: Status,
    pub said: Said,
}
