//! What types are.
ghost use Rattle.std.specs.Prelude.{◌≡◌};
ghost use Rattle.ato_files.specs.Programs.{AreBlocks};
ghost use Rattle.ato_instance_tree.specs.Kinds.{joined, joined_in, kind_from};
ghost use Rattle.ato_instance_tree.specs.Types.{type_kind};

use crate::NodeKind;
use crate::type_stmts::lineage_of;
use ato_ast::BlockKind;
use ato_files::Program;

/// What a type is whose ancestors are of a kind, with one more block behind them.
fn joined(above: NodeKind, kind: BlockKind) -> NodeKind
    ensures { result ≡ joined above kind }
{
    match kind {
        BlockKind::Component => NodeKind::Component,
        BlockKind::Module => match above {
            NodeKind::Component => NodeKind::Component,
            _ => NodeKind::Module,
        },
        BlockKind::Interface => above,
    }
}

/// The same, with the block of a number behind them, if it is there.
fn joined_in(program: &Program, above: NodeKind, number: u32) -> NodeKind
    ensures { AreBlocks program.now.files program.now.blocks → result ≡ joined_in program.now.files above number }
{
    match program.declared_block(number) {
        Some(block) => joined(above, block.kind),
        None => above,
    }
}

/// The same, with the blocks of these numbers.
fn kind_from(program: &Program, above: NodeKind, numbers: &[u32]) -> NodeKind
    ensures { AreBlocks program.now.files program.now.blocks → result ≡ kind_from program.now.files above numbers.now }
{
    let mut kind = above;
    for number in numbers {
        kind = joined_in(program, kind, *number);
    }
    kind
}

/// What a type is, that is, the block of a number with its ancestors: a component where one of them is, else a module where one is, else
/// an interface. It takes no memory.
pub fn kind(program: &Program, block: u32) -> NodeKind
    ensures { AreBlocks program.now.files program.now.blocks → result ≡ type_kind program.now.files block }
{
    match lineage_of(program, block) {
        Some(numbers) => kind_from(program, NodeKind::Interface, numbers),
        None => NodeKind::Interface,
    }
}
