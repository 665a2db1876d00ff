//! Projects of one file in memory.
ghost use Rattle.std.specs.Prelude.{IfOk, IfSome};
ghost use Rattle.ato_instance_tree.specs.Elaborated.{IsLoaded};

use ato_base::{List, NoMemory, Text};
use ato_files::{Program, load};
use ato_outside::SureShelf;
use std::alloc::Global;

/// The program of an entry file of this text, if it has no fault.
#[tactic(auto, using(ato_links::proofs::LoadedLaws::is_loaded))]
pub(crate) fn program_of(alloc: Global, text: &str) -> Result<Option<Program>, NoMemory>
    ensures { IfOk result (λ found. IfSome found (λ program. IsLoaded program)) }
{
    let mut bytes = Vec::new(alloc);
    bytes.extend_from_slice(text.as_bytes())?;
    let mut files = List::new(alloc);
    files.push((Text::copy(alloc, "main.ato")?, List::from_vec(bytes)))?;
    match load(alloc, &mut SureShelf::new(files), "main.ato") {
        Ok(program) => Ok(Some(program)),
        Err(_) => Ok(None),
    }
}
