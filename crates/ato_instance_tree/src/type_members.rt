//! The members of types.
ghost use Rattle.std.specs.Prelude.{◌≡◌, map, IfOk};
ghost use Rattle.ato_instance_tree.specs.Kept.{member_of, stmt_of};
ghost use Rattle.ato_instance_tree.specs.Members.{members_among};

use crate::StmtAt;
use crate::declared_names::declared_names;
use crate::listing::Listing;
use ato_ast::Named;
use ato_base::{List, NoMemory};
use ato_files::SourceFile;
use std::alloc::Global;

/// What a name of a type is.
#[derive(Clone, Copy, Debug, PartialEq, Eq)]
pub enum Kind {
    /// A signal.
    Signal,
    /// A parameter.
    Param,
    /// An instance, with the name of its type.
    Instance(Named),
}

/// A member of a type.
#[derive(Clone, Copy, Debug, PartialEq, Eq)]
pub enum Member<'a> {
    /// A pin, with the text of its label.
    Pin(&'a [u8]),
    /// A name, where it is declared first, and what it is.
    Named(Named, Kind),
}

/// The members that the statements of a type declare, in the order of their first declarations, each once. A name to which a quantity is
/// assigned is a parameter where no statement declares it. Pins have labels in a space of their own.
pub fn members<'a>(
    alloc: Global,
    files: &'a [SourceFile],
    statements: &[StmtAt<'a>],
) -> Result<List<Member<'a>>, NoMemory>
    ensures { IfOk result (λ found. map member_of found ≡ members_among files.now (map stmt_of statements.now)) }
{
    let declared = declared_names(alloc, statements)?;
    let mut listing = Listing::new(alloc);
    listing.push_stmts(files, &declared, statements)?;
    Ok(listing.found)
}
