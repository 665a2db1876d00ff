//! The first line of a block that has a fault.
ghost use Rattle.std.specs.Prelude.{◌≡◌, ◌+◌, ◌<◌, ◌^◌, IfOk, MatchOption, length};
ghost use Rattle.ato_first.specs.FirstForm.{block_text, IsFront};
ghost use Rattle.ato_first.specs.FirstPoints.{AreKnown, IsUnknownAt};
ghost use Rattle.ato_first.specs.FirstParts.{HasRanges, IsEmptyAt};

use crate::first_form::Block;
use crate::first_lines::{EmptyRange, UnknownName, first_line};
use crate::first_parts::attribute_of;
use crate::first_points::points_of;
use ato_base::NoMemory;
use std::alloc::Global;

/// Where the lines of a block begin.
fn lines_start(block: &Block) -> usize
    requires { length (block_text block.now) < 2 ^ 32 }
    ensures { result ≡ 12 + length block.now.name }
{
    12 + block.name.as_str().len()
}

/// Where the first line of a block begins that mentions a name which is not known, if there is one.
pub fn unknown_line(alloc: Global, block: &Block) -> Result<Option<u32>, NoMemory>
    requires front { IsFront block.now }
    requires size { length (block_text block.now) < 2 ^ 32 }
    ensures { IfOk result (λ found. MatchOption found (AreKnown block.now) (IsUnknownAt block.now)) }
{
    let lines = block.lines.as_slice();
    let points = points_of(alloc, lines)?;
    let unknown = UnknownName {
        signals: &points.signals,
        attribute: attribute_of(lines),
    };
    match first_line(&unknown, lines, lines_start(block)) {
        None => Ok(None),
        Some(at) => Ok(Some(at as u32)),
    }
}

/// Where the first line of a block begins that asserts a range without a value, if there is one.
pub fn empty_line(block: &Block) -> Option<u32>
    requires front { IsFront block.now }
    requires size { length (block_text block.now) < 2 ^ 32 }
    ensures { MatchOption result (HasRanges block.now) (IsEmptyAt block.now) }
{
    match first_line(&EmptyRange, block.lines.as_slice(), lines_start(block)) {
        None => None,
        Some(at) => Some(at as u32),
    }
}
