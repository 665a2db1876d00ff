//! The text that stands at a place.
ghost use Rattle.std.specs.Prelude.{◌≡◌};
ghost use Rattle.ato_instance_tree.specs.Members.{source_text};

use ato_base::Span;
use ato_files::{SourceFile, text_at};

/// The text that stands at a place of a program's files; nothing where there is no such file. It takes no memory.
pub fn source_text(files: &[SourceFile], at: Span) -> &[u8]
    ensures { result.now ≡ source_text files.now at }
{
    match files.get(at.file.0 as usize) {
        Some(file) => text_at(file.bytes.as_slice(), at),
        None => &[],
    }
}
