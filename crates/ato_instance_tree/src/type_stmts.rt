//! The statements of types.
ghost use Rattle.std.specs.Prelude.{◌≡◌, [], ◌∷◌, ◌++◌, map, slice_get, option_map, Some, None, OnOk, IfOk, MatchOption};
ghost use Rattle.std.specs.List.{flat_map};
ghost use Rattle.ato_files.specs.Blocks.{block_of};
ghost use Rattle.ato_files.specs.Lineages.{lineage};
ghost use Rattle.ato_files.specs.Lists.{numbered};
ghost use Rattle.ato_files.specs.Programs.{AreBlocks};
ghost use Rattle.ato_instance_tree.specs.Kept.{located_of, placed};
ghost use Rattle.ato_instance_tree.specs.Types.{line_stmts, located, type_stmts};

use ato_ast::{Line, Stmt};
use ato_base::{List, NoMemory};
use ato_files::{BlockInfo, Program};
use std::alloc::Global;

/// A statement of a type, and where it stands.
#[derive(Clone, Copy)]
pub struct StmtAt<'a> {
    /// The number of the block in which it stands.
    pub block: u32,
    /// The number of its line in the block, from 0.
    pub line: u32,
    /// Its number in the line, from 0.
    pub part: u32,
    /// The statement.
    pub stmt: &'a Stmt,
}

/// A number as an u32, if it is not too large.
fn small(number: usize) -> Result<u32, NoMemory>
    ensures { IfOk result (λ same. same ≡ number) }
{
    if number > 0xffff_ffff {
        return Err(NoMemory);
    }
    Ok(number as u32)
}

/// Puts a statement behind the others.
fn push_stmt<'a>(
    found: &mut List<StmtAt<'a>>,
    block: u32,
    line: u32,
    part: usize,
    stmt: &'a Stmt,
) -> Result<(), NoMemory>
    ensures { OnOk result (map located_of found.new ≡ map located_of found.old ++ placed block line (part, stmt.now) ∷ []) }
{
    let part = small(part)?;
    found.push(StmtAt {
        block,
        line,
        part,
        stmt,
    })
}

/// Puts the statements of a line behind the others.
fn push_line<'a>(
    found: &mut List<StmtAt<'a>>,
    block: u32,
    line: u32,
    parts: &'a [Stmt],
) -> Result<(), NoMemory>
    ensures { OnOk result (map located_of found.new ≡ map located_of found.old ++ line_stmts block (line, parts.now)) }
{
    for (part, stmt) in parts.iter().enumerate() {
        push_stmt(found, block, line, part, stmt)?;
    }
    Ok(())
}

/// Puts the statements of the lines of a block behind the others.
fn push_lines<'a>(
    found: &mut List<StmtAt<'a>>,
    block: u32,
    lines: &'a [Line<Stmt>],
) -> Result<(), NoMemory>
    ensures { OnOk result (map located_of found.new ≡ map located_of found.old ++ flat_map (line_stmts block) (numbered 0 (map (λ l. l.parts) lines.now))) }
{
    for (number, line) in lines.iter().enumerate() {
        push_line(found, block, small(number)?, line.parts.as_slice())?;
    }
    Ok(())
}

/// Puts the statements of the block of a number behind the others.
fn push_block<'a>(
    found: &mut List<StmtAt<'a>>,
    program: &'a Program,
    number: u32,
) -> Result<(), NoMemory>
    ensures { OnOk result (AreBlocks program.now.files program.now.blocks → map located_of found.new ≡ map located_of found.old ++ located program.now.files number) }
{
    match program.declared_block(number) {
        Some(block) => push_lines(found, number, block.lines.as_slice()),
        None => Ok(()),
    }
}

/// Puts the statements of blocks behind the others.
fn push_blocks<'a>(
    found: &mut List<StmtAt<'a>>,
    program: &'a Program,
    numbers: &[u32],
) -> Result<(), NoMemory>
    ensures { OnOk result (AreBlocks program.now.files program.now.blocks → map located_of found.new ≡ map located_of found.old ++ flat_map (located program.now.files) numbers.now) }
{
    for number in numbers {
        push_block(found, program, *number)?;
    }
    Ok(())
}

/// What is kept of the block of a number.
fn info_at(blocks: &[BlockInfo], number: usize) -> Option<&BlockInfo>
    ensures { option_map (λ info. info.now) result ≡ slice_get blocks.now number }
{
    blocks.get(number)
}

/// The lineage that is kept of a block.
fn kept_lineage(info: &BlockInfo) -> &[u32]
    ensures { result.now ≡ info.now.lineage }
{
    info.lineage.as_slice()
}

/// The lineage of a block: its ancestors, the oldest first, and the block. It takes no memory.
pub(crate) fn lineage_of(program: &Program, block: u32) -> Option<&[u32]>
    ensures { AreBlocks program.now.files program.now.blocks → MatchOption result (block_of program.now.files block ≡ None) (λ numbers. numbers.now ≡ lineage program.now.files block) }
{
    match info_at(program.blocks.as_slice(), block as usize) {
        Some(info) => Some(kept_lineage(info)),
        None => None,
    }
}

/// The statements of a type, that is, of the block of a number: those of its ancestors, the oldest first, and then its own. A type that is
/// not there has none. Numbers that an u32 does not hold find no memory.
pub fn statements<'a>(
    alloc: Global,
    program: &'a Program,
    block: u32,
) -> Result<List<StmtAt<'a>>, NoMemory>
    ensures { IfOk result (λ found. AreBlocks program.now.files program.now.blocks → map located_of found ≡ type_stmts program.now.files block) }
{
    let mut found = List::new(alloc);
    if let Some(numbers) = lineage_of(program, block) {
        push_blocks(&mut found, program, numbers)?;
    }
    Ok(found)
}
