//! Pieces that stand first in a text.
ghost use Rattle.std.specs.Prelude.{◌≡◌, ◌++◌, List, ℕ, IsSomeAnd, IfSome};

/// What follows a piece that stands first.
pub(crate) fn after<'a>(text: &'a [u8], piece: &[u8]) -> Option<&'a [u8]>
    ensures back { (rest : List ℕ) → text.now ≡ piece.now ++ rest → IsSomeAnd result (λ r. r.now ≡ rest) }
    ensures stands { IfSome result (λ r. text.now ≡ piece.now ++ r.now) }
{
    text.strip_prefix(piece)
}
