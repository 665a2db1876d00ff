//! The faults of what a block declares.
ghost use Rattle.std.specs.Prelude.{◌≡◌, map, OnOk};
ghost use Rattle.ato_files.specs.Clashes.{clashing_of, declared_twice};
ghost use Rattle.ato_files.specs.MemberLists.{declared_of};
ghost use Rattle.ato_files.specs.NameFaults.{inherited};
ghost use Rattle.ato_files.specs.Noted.{noted};
ghost use Rattle.ato_files.specs.Tables.{AreTables, pin_fault};

use crate::clashes::Clashes;
use crate::inherited::add_inherited;
use crate::least::Least;
use crate::members::Declared;
use crate::tables::Tables;
use ato_ast::Label;
use ato_base::{FaultKind, NoMemory};
use std::alloc::Global;

/// Notes the declarations of a block that clash with an inherited or an earlier one.
pub(crate) fn note_decls(
    alloc: Global,
    tables: &Tables<'_>,
    block: usize,
    decls: &[Declared],
    least: &mut Least,
) -> Result<(), NoMemory>
    requires { AreTables tables.now }
    ensures { OnOk result (least.new ≡ noted least.old (map declared_twice (clashing_of (map declared_of (inherited tables.now.files.now block)) decls.now))) }
{
    if let [] = decls {
        return Ok(());
    }
    let mut clashes = Clashes::new(alloc);
    add_inherited(alloc, &mut clashes, tables.members, tables.parents, block)?;
    clashes.note_all(decls, least)
}

/// Notes pins where none may stand.
pub(crate) fn note_pins(pins: &[Label], least: &mut Least)
    ensures { least.new ≡ noted least.old (map pin_fault pins.now) }
{
    for pin in pins {
        least.note(FaultKind::WrongKind, pin.at());
    }
}
