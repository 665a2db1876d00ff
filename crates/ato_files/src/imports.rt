ghost use Rattle.std.specs.Prelude.{◌≡◌, ◌++◌, IfOk, OnOk};
ghost use Rattle.std.specs.List.{flat_map};
ghost use Rattle.ato_files.specs.Blocks.{head_imports, imports_of};
ghost use Rattle.ato_files.specs.Imports.{names_from, item_imports};

use crate::SourceFile;
use ato_ast::{Head, Item, Named, Quoted};
use ato_base::{List, NoMemory};
use std::alloc::Global;

/// An imported name, with the string that names its file, if it is not the library.
pub(crate) type Import = (Named, Option<Quoted>);

/// Puts names of one file behind the others.
fn push_names(
    imports: &mut List<Import>,
    from: Option<Quoted>,
    names: &[Named],
) -> Result<(), NoMemory>
    ensures { OnOk result (imports.new ≡ imports.old ++ names_from from names.now) }
{
    for name in names {
        imports.push((*name, from))?;
    }
    Ok(())
}

/// Puts the imports of a head behind the others.
fn push_head(imports: &mut List<Import>, head: &Head) -> Result<(), NoMemory>
    ensures { OnOk result (imports.new ≡ imports.old ++ head_imports head.now) }
{
    match head {
        Head::ImportFrom(name, from, _) => imports.push((*name, Some(*from))),
        Head::From(from, names, _) => push_names(imports, Some(*from), names.as_slice()),
        Head::Import(names, _) => push_names(imports, None, names.as_slice()),
        Head::Docs(_) => Ok(()),
        Head::Pass(_) => Ok(()),
    }
}

/// Puts the imports of heads behind the others.
fn push_heads(imports: &mut List<Import>, heads: &[Head]) -> Result<(), NoMemory>
    ensures { OnOk result (imports.new ≡ imports.old ++ flat_map head_imports heads.now) }
{
    for head in heads {
        push_head(imports, head)?;
    }
    Ok(())
}

/// Puts the imports of an item behind the others.
fn push_item(imports: &mut List<Import>, item: &Item) -> Result<(), NoMemory>
    ensures { OnOk result (imports.new ≡ imports.old ++ item_imports item.now) }
{
    match item {
        Item::Heads(line) => push_heads(imports, line.parts.as_slice()),
        Item::Block(_) => Ok(()),
    }
}

/// The imports of items, in written order.
fn imports_of_items(alloc: Global, items: &[Item]) -> Result<List<Import>, NoMemory>
    ensures { IfOk result (λ imports. imports ≡ flat_map item_imports items.now) }
{
    let mut imports = List::new(alloc);
    for item in items {
        push_item(&mut imports, item)?;
    }
    Ok(imports)
}

/// The imports of a file, in written order.
pub(crate) fn imports_of(alloc: Global, file: &SourceFile) -> Result<List<Import>, NoMemory>
    ensures { IfOk result (λ imports. imports ≡ imports_of file.now) }
{
    imports_of_items(alloc, file.tree.items.as_slice())
}
