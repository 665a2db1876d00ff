//! Trees as they are read.
ghost use Rattle.std.specs.Prelude.{MatchResult};
ghost use Rattle.ato_cert.specs.Texts.{tree_text};
ghost use Rattle.ato_cert.specs.Readable.{IsTreeOver};
ghost use Rattle.ato_cert.specs.Reading.{Reads, ReadsNothing, Because};

use crate::PickTree;
use crate::line::{Line, ReadFault};
use crate::lines::read_line;
use std::alloc::Global;

/// The tree that stands first, over so many slots and checks, with so many nodes that may stand above
/// its lines, and what follows.
pub(crate) fn read_tree(
    alloc: Global,
    count: u32,
    above: u32,
    text: &[u8],
) -> Result<(PickTree, &[u8]), ReadFault>
    ensures { MatchResult result
        (λ r. Reads (IsTreeOver count above) tree_text text.now r.0 r.1.now)
        (Because (ReadsNothing (IsTreeOver count above) tree_text text.now)) }
{
    let (line, rest) = read_line(alloc, count, above, text)?;
    match line {
        Line::Empty(slot) => Ok((PickTree::Empty(slot), rest)),
        Line::Fails(check, point) => Ok((PickTree::Fails { check, point }, rest)),
        Line::Row(slot, row) => {
            let (low, rest) = read_tree(alloc, count, above - 1, rest)?;
            let (high, rest) = read_tree(alloc, count, above - 1, rest)?;
            let tree = PickTree::divided(alloc, slot, row, low, high)?;
            Ok((tree, rest))
        }
    }
}
