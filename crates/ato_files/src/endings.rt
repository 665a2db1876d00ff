ghost use Rattle.std.specs.Prelude.{◌≡◌, ◌<◌, ◌+◌, not, length, IfOk};
ghost use Rattle.ato_files.specs.ParentLists.{AreMade, AreMarks, AreEnds, endless};

use ato_base::{List, NoMemory};
use std::alloc::Global;

/// Walks up from a block, marks the blocks on the way with its number, and tells whether its ancestors end. A walk stops
/// at a block without a parent or at a marked one.
fn walk_up(parents: &[Option<u32>], start: usize, walks: &mut [usize], ends: &[bool]) -> bool
    requires made { AreMade parents.now }
    requires start { start < length parents.now }
    requires marks { AreMarks parents.now start walks.old }
    requires ends { AreEnds parents.now start ends.now }
    ensures ends { result ≡ not (endless parents.now start) }
    ensures marks { AreMarks parents.now (start + 1) walks.new }
{
    let mut block = start;
    for _ in 0..parents.len() + 1 {
        walks[block] = start;
        match parents[block] {
            None => return true,
            Some(above) => block = above as usize,
        }
        let walk = walks[block];
        if walk == start {
            return false;
        }
        if walk < start {
            return ends[walk];
        }
    }
    false
}

/// Whether the ancestors of the next block end.
fn next_ends(parents: &[Option<u32>], start: usize, walks: &mut [usize], ends: &[bool]) -> bool
    requires made { AreMade parents.now }
    requires start { start < length parents.now }
    requires marks { AreMarks parents.now start walks.old }
    requires ends { AreEnds parents.now start ends.now }
    ensures ends { result ≡ not (endless parents.now start) }
    ensures marks { AreMarks parents.now (start + 1) walks.new }
{
    let walk = walks[start];
    if walk < start {
        ends[walk]
    } else {
        walk_up(parents, start, walks, ends)
    }
}

/// Whether the ancestors of each block end.
pub(crate) fn endings(alloc: Global, parents: &[Option<u32>]) -> Result<List<bool>, NoMemory>
    requires { AreMade parents.now }
    ensures { IfOk result (λ ends. AreEnds parents.now (length parents.now) ends) }
{
    let mut walks = vec![in alloc; parents.len(); parents.len()]?;
    let mut ends = List::with_capacity(alloc, parents.len())?;
    for start in 0..parents.len() {
        ends.push(next_ends(parents, start, &mut walks, ends.as_slice()))?;
    }
    Ok(ends)
}
