//! Blocks.
ghost use Rattle.std.specs.Prelude.{◌≡◌};
ghost use Rattle.ato_parser.specs.Input.{Reads};
ghost use Rattle.ato_parser.specs.Parts.{alone, maybe_from, more_of};
ghost use Rattle.ato_parser.specs.FileReading as spec;
ghost use Rattle.ato_parser.specs.Reading as reading;

use crate::cursor::Tokens;
use crate::kinds::{block_of, is_newline};
use crate::lines::line;
use crate::names::name;
use crate::stmts::starts_stmt;
use crate::stop::Stop;
use ato_ast::{Block, Line, Named, Stmt};
use ato_base::{Keyword, List, Mark};
use std::alloc::Global;

/// A line of statements.
#[tactic(auto, unfolding(crate::specs::FileReading::stmts_line))]
fn stmts_line(alloc: Global, tokens: &mut Tokens<'_>, depth: usize) -> Result<Line<Stmt>, Stop>
    ensures { Reads (spec.stmts_line depth tokens.old) result tokens.new }
{
    line(alloc, tokens, depth)
}

/// A first line of statements, and those behind it.
fn more_lines(
    alloc: Global,
    tokens: &mut Tokens<'_>,
    depth: usize,
    first: Line<Stmt>,
) -> Result<List<Line<Stmt>>, Stop>
    ensures { Reads (more_of reading.starts_stmt (spec.stmts_line depth) first tokens.old) result tokens.new }
{
    let mut found = List::new(alloc);
    found.push(first)?;
    for _turn in 0..tokens.left() {
        if !starts_stmt(tokens.peek()) {
            break;
        }
        let next = stmts_line(alloc, tokens, depth)?;
        found.push(next)?;
    }
    Ok(found)
}

/// The deeper lines of a block, with the line end before them.
#[tactic(auto, unfolding(crate::specs::FileReading::indented))]
fn indented(alloc: Global, tokens: &mut Tokens<'_>, depth: usize) -> Result<List<Line<Stmt>>, Stop>
    ensures { Reads (spec.indented depth tokens.old) result tokens.new }
{
    tokens.expect_newline()?;
    tokens.expect_indent()?;
    let first = stmts_line(alloc, tokens, depth)?;
    let lines = more_lines(alloc, tokens, depth, first)?;
    tokens.expect_dedent()?;
    Ok(lines)
}

/// The one line of a block that stands behind its colon.
fn only_line(alloc: Global, tokens: &mut Tokens<'_>, depth: usize) -> Result<List<Line<Stmt>>, Stop>
    ensures { Reads (alone (spec.stmts_line depth) tokens.old) result tokens.new }
{
    let only = stmts_line(alloc, tokens, depth)?;
    let mut lines = List::new(alloc);
    lines.push(only)?;
    Ok(lines)
}

/// What stands behind the colon of a block: whether it is on its line, and its lines.
#[tactic(auto, unfolding(crate::specs::FileReading::body))]
fn body(
    alloc: Global,
    tokens: &mut Tokens<'_>,
    depth: usize,
) -> Result<(bool, List<Line<Stmt>>), Stop>
    ensures { Reads (spec.body depth tokens.old) result tokens.new }
{
    if is_newline(tokens.peek()) {
        let lines = indented(alloc, tokens, depth)?;
        return Ok((false, lines));
    }
    let lines = only_line(alloc, tokens, depth)?;
    Ok((true, lines))
}

/// The name behind `from`, where that stands there.
fn parent(tokens: &mut Tokens<'_>) -> Result<Option<Named>, Stop>
    ensures { Reads (maybe_from tokens.old) result tokens.new }
{
    if !tokens.eat_keyword(Keyword::From) {
        return Ok(None);
    }
    Ok(Some(name(tokens)?))
}

/// A block.
#[tactic(auto, unfolding(crate::specs::FileReading::block))]
pub(crate) fn block(alloc: Global, tokens: &mut Tokens<'_>, depth: usize) -> Result<Block, Stop>
    ensures { Reads (spec.block depth tokens.old) result tokens.new }
{
    let Some(kind) = block_of(tokens.peek()) else {
        return Err(tokens.refuse());
    };
    tokens.take();
    let name = name(tokens)?;
    let parent = parent(tokens)?;
    tokens.expect(Mark::Colon)?;
    let (inline, lines) = body(alloc, tokens, depth)?;
    Ok(Block {
        kind,
        name,
        parent,
        inline,
        lines,
    })
}
