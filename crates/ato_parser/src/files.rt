//! Files.
ghost use Rattle.std.specs.Prelude.{◌≡◌};
ghost use Rattle.ato_parser.specs.Faults.{deepest};
ghost use Rattle.ato_parser.specs.Input.{Reads, many};
ghost use Rattle.ato_parser.specs.FileReading as spec;

use crate::blocks::block;
use crate::cursor::Tokens;
use crate::exprs::DEEPEST;
use crate::heads::starts_head;
use crate::kinds::block_of;
use crate::lines::line;
use crate::stop::Stop;
use ato_ast::{File, Head, Item, Line};
use ato_base::{List, TokenKind};
use std::alloc::Global;

/// Whether a piece of a file begins with it.
fn starts_item(kind: TokenKind) -> bool
    ensures { result ≡ spec.starts_item kind }
{
    block_of(kind).is_some() || starts_head(kind)
}

/// A block or a line of heads.
#[tactic(auto, unfolding(crate::specs::FileReading::item))]
fn item(alloc: Global, tokens: &mut Tokens<'_>, depth: usize) -> Result<Item, Stop>
    ensures { Reads (spec.item depth tokens.old) result tokens.new }
{
    if block_of(tokens.peek()).is_some() {
        return Ok(Item::Block(block(alloc, tokens, depth)?));
    }
    let heads: Line<Head> = line(alloc, tokens, depth)?;
    Ok(Item::Heads(heads))
}

/// Pieces of a file, as long as the next token begins one.
fn items(alloc: Global, tokens: &mut Tokens<'_>, depth: usize) -> Result<List<Item>, Stop>
    ensures { Reads (many spec.starts_item (spec.item depth) tokens.old) result tokens.new }
{
    let mut found = List::new(alloc);
    for _turn in 0..tokens.left() {
        if !starts_item(tokens.peek()) {
            break;
        }
        let next = item(alloc, tokens, depth)?;
        found.push(next)?;
    }
    Ok(found)
}

/// A file.
#[tactic(auto, unfolding(crate::specs::FileReading::file))]
pub(crate) fn file(alloc: Global, tokens: &mut Tokens<'_>) -> Result<File, Stop>
    ensures { Reads (spec.file deepest tokens.old) result tokens.new }
{
    let items = items(alloc, tokens, DEEPEST)?;
    tokens.expect_end()?;
    Ok(File { items })
}
