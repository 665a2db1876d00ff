/// A file of the project: 0 is the library, 1 the entry file, and then the order of loading.
#[derive(Clone, Copy, Debug, PartialEq, Eq)]
pub struct FileId(pub u32);

/// Some bytes of a file, from `start` up to and without `end`.
#[derive(Clone, Copy, Debug, PartialEq, Eq)]
pub struct Span {
    pub file: FileId,
    pub start: u32,
    pub end: u32,
}

/// Where a fault stands.
#[derive(Clone, Copy, Debug, PartialEq, Eq)]
pub enum Place {
    /// In a source file.
    Source(Span),
    /// In the catalogue. Row 0 is the header, and columns count from 1; column 0 is the whole row.
    Cell { row: u32, column: u32 },
    /// At a positional word of the command line. The command is word 0.
    Word(u32),
}
