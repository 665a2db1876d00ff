//! The statements of occurrences.
ghost use Rattle.std.specs.Prelude.{◌≡◌, map, Some, IfOk};
ghost use Rattle.std.specs.Option.{option_map};
ghost use Rattle.ato_files.specs.Programs.{AreBlocks};
ghost use Rattle.ato_instance_tree.specs.Targets.{stmt_at};
ghost use Rattle.ato_elab.specs.Listing.{stmt_of};

use ato_ast::Stmt;
use ato_base::{List, NoMemory};
use ato_files::Program;
use ato_instance_tree::Occurrence;
use std::alloc::Global;

/// The statement of an occurrence.
fn stmt_of<'a>(program: &'a Program, at: &Occurrence) -> Option<&'a Stmt>
    ensures { AreBlocks program.now.files program.now.blocks → option_map (λ s. s.now) result ≡ stmt_of program.now.files at.now }
{
    let block = program.declared_block(at.block)?;
    let line = block.lines.as_slice().get(at.line as usize)?;
    line.parts.as_slice().get(at.part as usize)
}

/// The statements of occurrences.
pub(crate) fn stmts_of<'a>(
    alloc: Global,
    program: &'a Program,
    all: &[Occurrence],
) -> Result<List<&'a Stmt>, NoMemory>
    ensures { IfOk result (λ stmts. AreBlocks program.now.files program.now.blocks → map (λ s. Some s.now) stmts ≡ map (stmt_of program.now.files) all.now) }
{
    let mut stmts = List::new(alloc);
    for at in all {
        match stmt_of(program, at) {
            Some(stmt) => stmts.push(stmt)?,
            None => return Err(NoMemory),
        }
    }
    Ok(stmts)
}
