//! The parts that are taken.
ghost use Rattle.std.specs.Prelude.{ℕ, List, ◌≡◌, ◌||◌, not, IfOk, OnOk};
ghost use Rattle.std.specs.Str.{bytes_eq};
ghost use Rattle.ato_catalog.specs.Parts.{has_part};

use ato_base::NoMemory;
use std::collections::HashSet;

/// Puts a part into a set, and says whether it is new there.
pub(crate) fn note_part<'a>(parts: &mut HashSet<&'a [u8]>, part: &'a [u8]) -> Result<bool, NoMemory>
    ensures new { IfOk result (λ new. new ≡ not (has_part parts.old part.now)) }
    ensures parts { OnOk result ((other : List ℕ) →
        has_part parts.new other ≡ (has_part parts.old other || bytes_eq part.now other)) }
{
    Ok(parts.insert(part)?)
}
