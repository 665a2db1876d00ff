//! The faults of the name of a block's parent.
ghost use Rattle.std.specs.Prelude.{◌≡◌, ◌<◌, length};
ghost use Rattle.ato_files.specs.Blocks.{blocks_of};
ghost use Rattle.ato_files.specs.Lineages.{parent};
ghost use Rattle.ato_files.specs.NameFaults.{parent_faults};
ghost use Rattle.ato_files.specs.Noted.{noted};
ghost use Rattle.ato_files.specs.Tables.{AreTables};

use crate::least::Least;
use crate::tables::{Tables, is_interface};
use ato_ast::Block;
use ato_base::FaultKind;

/// Notes the faults of the name of a block's parent.
#[tactic(auto, using(crate::proofs::NotedLaws::noted_append))]
pub(crate) fn note_parent(
    tables: &Tables<'_>,
    number: usize,
    file: usize,
    block: &Block,
    least: &mut Least,
)
    requires tables { AreTables tables.now }
    requires within { number < length (blocks_of tables.now.files.now) }
    ensures { least.new ≡ noted least.old (parent_faults tables.now.files.now number file block.now block.now.parent (parent tables.now.files.now number)) }
{
    let name = match block.parent {
        None => return,
        Some(name) => name,
    };
    match tables.parent(number) {
        None => least.note_unless(
            tables.knows(file, name.name),
            FaultKind::NameUnknown,
            name.at,
        ),
        Some(above) => {
            least.note_if(tables.never_ends(number), FaultKind::SuperLoop, name.at);
            let alike = is_interface(block.kind) == tables.is_interface_block(above);
            least.note_unless(alike, FaultKind::WrongKind, name.at);
        }
    }
}
