ghost use Rattle.std.specs.Prelude.{◌≡◌};
ghost use Rattle.ato_files.specs.Lists.{text_at};

use ato_base::Span;

/// The bytes of a place in a file.
pub fn text_at(bytes: &[u8], at: Span) -> &[u8]
    ensures { result.now ≡ text_at bytes.now at }
{
    let start = bytes.len().min(at.start as usize);
    let rest = &bytes[start..];
    let end = rest.len().min(at.end.saturating_sub(at.start) as usize);
    &rest[..end]
}
