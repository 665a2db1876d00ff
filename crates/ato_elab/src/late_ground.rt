//! What is known of a tree when its occurrences are looked at.
use crate::assigned::Assigned;
use crate::built::Built;
use crate::finding_pins::Pins;
use ato_ast::Stmt;
use ato_base::Name;
use ato_files::SourceFile;

/// What is known of a tree when its occurrences are looked at.
#[derive(Clone, Copy)]
pub(crate) struct Ground<'a> {
    /// The files.
    pub(crate) files: &'a [SourceFile],
    /// The nodes and the occurrences.
    pub(crate) built: &'a Built,
    /// The statements of the occurrences.
    pub(crate) stmts: &'a [&'a Stmt],
    /// The pins of the types.
    pub(crate) pins: &'a Pins<'a>,
    /// The assignments that count.
    pub(crate) assigned: &'a Assigned,
    /// The name `kind`, if it occurs.
    pub(crate) kind: Option<Name>,
    /// The name `designator_prefix`, if it occurs.
    pub(crate) prefix: Option<Name>,
}
