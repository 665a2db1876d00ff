//! Where a name of a file is first mentioned.
ghost use Rattle.std.specs.Prelude.{◌≡◌, IfOk};
ghost use Rattle.ato_files.specs.Files.{mentions};
ghost use Rattle.ato_files.specs.Loading.{first_mention, mention_in};

use crate::SourceFile;
use crate::mentions::mentions;
use crate::pieces::text_at;
use ato_ast::Quoted;
use ato_base::{NoMemory, Place};
use std::alloc::Global;

/// Where a name is first mentioned by strings of a file.
fn mention_in(name: &str, bytes: &[u8], texts: &[Quoted]) -> Option<Place>
    ensures { result ≡ mention_in name.now bytes.now texts.now }
{
    for text in texts {
        if text_at(bytes, text.contents) == name.as_bytes() {
            return Some(Place::Source(text.at));
        }
    }
    None
}

/// Where a name is first mentioned in a file.
fn mention_of(alloc: Global, name: &str, file: &SourceFile) -> Result<Option<Place>, NoMemory>
    ensures { IfOk result (λ place. place ≡ mention_in name.now file.now.bytes (mentions file.now)) }
{
    let texts = mentions(alloc, &file.tree)?;
    Ok(mention_in(name, file.bytes.as_slice(), texts.as_slice()))
}

/// Where a name is first mentioned in files; the entry's at word 1.
pub(crate) fn first_mention(
    alloc: Global,
    name: &str,
    files: &[SourceFile],
) -> Result<Place, NoMemory>
    ensures { IfOk result (λ place. place ≡ first_mention name.now files.now) }
{
    for file in files {
        match mention_of(alloc, name, file)? {
            Some(place) => return Ok(place),
            None => {}
        }
    }
    Ok(Place::Word(1))
}
