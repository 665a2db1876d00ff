//! Paths of instances, as texts.
ghost use Rattle.std.specs.Prelude.{◌≡◌, ◌++◌, ◌∷◌, [], ℕ, List, IfOk, OnOk, if◌then◌else◌};
ghost use Rattle.ato_files.specs.declared.program.Program.{Program};
ghost use Rattle.ato_instance_tree.specs.declared.tree.Tree.{Tree};
ghost use Rattle.ato_links.specs.Parts.{path_text};
ghost use Rattle.ato_netlists.specs.Known.{IsAt, IsSound};
ghost use Rattle.ato_netlists.specs.Naming.{name_text};

use ato_base::{Name, NameTable, NoMemory, Text};
use ato_elab::names_to;
use ato_instance_tree::Node;
use std::alloc::Global;

/// Puts a name behind a path.
fn push_name(into: &mut Text, names: &NameTable, name: Name, is_first: bool) -> Result<(), NoMemory>
    ensures { OnOk result (into.new ≡ into.old ++ (if is_first then [] else 46 ∷ []) ++ name_text names.now name) }
{
    if !is_first {
        into.push_str(".")?;
    }
    match names.text(name) {
        Some(text) => into.push_str(text),
        None => Ok(()),
    }
}

/// The names from the root to an instance, joined by points.
pub(crate) fn path_text(
    alloc: Global,
    names: &NameTable,
    nodes: &[Node],
    number: u32,
) -> Result<Text, NoMemory>
    ensures { IfOk result (λ text. (program : Program) (tree : Tree) (entry : ℕ) (path : List ℕ) → IsSound program tree entry → names.now ≡ program.names
        → nodes.now ≡ tree.nodes → IsAt program entry number path → text ≡ path_text program.names path) }
{
    let path = names_to(alloc, names, nodes, number)?;
    let mut text = Text::new(alloc);
    for (at, name) in path.as_slice().iter().enumerate() {
        push_name(&mut text, names, *name, at == 0)?;
    }
    Ok(text)
}
