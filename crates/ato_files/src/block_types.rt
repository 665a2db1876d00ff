//! The faults of the names of types in a block.
ghost use Rattle.std.specs.Prelude.{◌≡◌};
ghost use Rattle.std.specs.List.{flat_map};
ghost use Rattle.ato_files.specs.Noted.{noted};
ghost use Rattle.ato_files.specs.NameFaults.{unknown};
ghost use Rattle.ato_files.specs.Tables.{AreTables, made_faults};

use crate::least::Least;
use crate::tables::Tables;
use ato_ast::Named;
use ato_base::FaultKind;

/// Notes the names of types that are no names of the file.
pub(crate) fn note_types(tables: &Tables<'_>, file: usize, types: &[Named], least: &mut Least)
    requires { AreTables tables.now }
    ensures { least.new ≡ noted least.old (flat_map (unknown tables.now.files.now file) types.now) }
{
    for of in types {
        least.note_unless(tables.knows(file, of.name), FaultKind::NameUnknown, of.at);
    }
}

/// Notes a type that is no interface.
fn note_made_one(tables: &Tables<'_>, file: usize, of: &Named, least: &mut Least)
    requires { AreTables tables.now }
    ensures { least.new ≡ noted least.old (made_faults tables.now.files.now file of.now) }
{
    if let Some(block) = tables.meaning(file, of.name) {
        least.note_unless(
            tables.is_interface_block(block),
            FaultKind::WrongKind,
            of.at,
        );
    }
}

/// Notes the types, made in an interface, that are no interfaces.
pub(crate) fn note_made(tables: &Tables<'_>, file: usize, made: &[Named], least: &mut Least)
    requires { AreTables tables.now }
    ensures { least.new ≡ noted least.old (flat_map (made_faults tables.now.files.now file) made.now) }
{
    for of in made {
        note_made_one(tables, file, of, least);
    }
}
