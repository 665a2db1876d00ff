ghost use Rattle.std.specs.Prelude.{◌≡◌, find};
ghost use Rattle.std.specs.List.{flat_map};
ghost use Rattle.ato_files.specs.Blocks.{head_imports, imports_of};
ghost use Rattle.ato_files.specs.Finding.{is_of, import_in};
ghost use Rattle.ato_files.specs.Imports.{names_from, item_imports};

use crate::SourceFile;
use crate::imports::Import;
use ato_ast::{Head, Item, Named, Quoted};
use ato_base::Name;

/// The first import of a name among names of one file.
fn in_names(names: &[Named], from: Option<Quoted>, name: Name) -> Option<Import>
    ensures { result ≡ find (is_of name.0) (names_from from names.now) }
{
    for one in names {
        if one.name.0 == name.0 {
            return Some((*one, from));
        }
    }
    None
}

/// The first import of a name in a head.
fn in_head(head: &Head, name: Name) -> Option<Import>
    ensures { result ≡ find (is_of name.0) (head_imports head.now) }
{
    match head {
        Head::ImportFrom(one, from, _) => {
            if one.name.0 == name.0 {
                Some((*one, Some(*from)))
            } else {
                None
            }
        }
        Head::From(from, names, _) => in_names(names.as_slice(), Some(*from), name),
        Head::Import(names, _) => in_names(names.as_slice(), None, name),
        Head::Docs(_) => None,
        Head::Pass(_) => None,
    }
}

/// The first import of a name in heads.
fn in_heads(heads: &[Head], name: Name) -> Option<Import>
    ensures { result ≡ find (is_of name.0) (flat_map head_imports heads.now) }
{
    for head in heads {
        if let Some(import) = in_head(head, name) {
            return Some(import);
        }
    }
    None
}

/// The first import of a name in an item.
fn in_item(item: &Item, name: Name) -> Option<Import>
    ensures { result ≡ find (is_of name.0) (item_imports item.now) }
{
    match item {
        Item::Heads(line) => in_heads(line.parts.as_slice(), name),
        Item::Block(_) => None,
    }
}

/// The first import of a name in items.
fn in_items(items: &[Item], name: Name) -> Option<Import>
    ensures { result ≡ import_in name.0 items.now }
{
    for item in items {
        if let Some(import) = in_item(item, name) {
            return Some(import);
        }
    }
    None
}

/// The first import of a name in a file.
pub(crate) fn first_import(file: &SourceFile, name: Name) -> Option<Import>
    ensures { result ≡ find (is_of name.0) (imports_of file.now) }
{
    in_items(file.tree.items.as_slice(), name)
}
