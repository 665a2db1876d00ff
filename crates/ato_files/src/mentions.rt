//! The files that a loaded file mentions.
ghost use Rattle.std.specs.Prelude.{◌≡◌, ◌++◌, All, IfOk, IsUtf8, OnOk, length, nat_lt};
ghost use Rattle.std.specs.List.{flat_map};
ghost use Rattle.ato_base.specs.NameTable.{with_name};
ghost use Rattle.ato_files.specs.Files.{head_mention, item_heads};
ghost use Rattle.ato_files.specs.Lists.{text_at};
ghost use Rattle.ato_files.specs.Loading.{most_files};
ghost use Rattle.ato_files.specs.Walks.{HasText, Notes, tree_mentions};

use crate::known::FileNames;
use crate::pieces::text_at;
use ato_ast::{File, Head, Item, Quoted};
use ato_base::{List, NoMemory, Span};
use std::alloc::Global;
use std::str;

/// Puts the string that names a file in a head, if there is one.
fn push_mention(found: &mut List<Quoted>, head: &Head) -> Result<(), NoMemory>
    ensures { OnOk result (found.new ≡ found.old ++ head_mention head.now) }
{
    match head {
        Head::ImportFrom(_, from, _) => found.push(*from),
        Head::From(from, _, _) => found.push(*from),
        Head::Import(_, _) => Ok(()),
        Head::Docs(_) => Ok(()),
        Head::Pass(_) => Ok(()),
    }
}

/// Puts the strings that name files in heads.
fn push_mentions(found: &mut List<Quoted>, heads: &[Head]) -> Result<(), NoMemory>
    ensures { OnOk result (found.new ≡ found.old ++ flat_map head_mention heads.now) }
{
    for head in heads {
        push_mention(found, head)?;
    }
    Ok(())
}

/// Puts the strings that name files in a piece of a file.
fn push_item_mentions(found: &mut List<Quoted>, item: &Item) -> Result<(), NoMemory>
    ensures { OnOk result (found.new ≡ found.old ++ flat_map head_mention (item_heads item.now)) }
{
    match item {
        Item::Heads(line) => push_mentions(found, line.parts.as_slice()),
        Item::Block(_) => Ok(()),
    }
}

/// Puts the strings that name files in the pieces of a file.
fn push_items_mentions(found: &mut List<Quoted>, items: &[Item]) -> Result<(), NoMemory>
    ensures { OnOk result (found.new ≡ found.old ++ flat_map head_mention (flat_map item_heads items.now)) }
{
    for item in items {
        push_item_mentions(found, item)?;
    }
    Ok(())
}

/// The strings of a file's imports, in written order.
pub(crate) fn mentions(alloc: Global, tree: &File) -> Result<List<Quoted>, NoMemory>
    ensures { IfOk result (λ found. found ≡ tree_mentions tree.now) }
{
    let mut found = List::new(alloc);
    push_items_mentions(&mut found, tree.items.as_slice())?;
    Ok(found)
}

/// The text of a place that has one.
fn text_of(bytes: &[u8], at: Span) -> &str
    requires { IsUtf8 (text_at bytes.now at) }
    ensures { result.now ≡ text_at bytes.now at }
{
    match str::from_utf8(text_at(bytes, at)) {
        Ok(text) => text,
        Err(_) => unreachable!(),
    }
}

/// Makes the file of a string known, and tells whether too many are known then.
fn note_text(known: &mut FileNames, bytes: &[u8], text: Quoted) -> Result<bool, NoMemory>
    requires { IsUtf8 (text_at bytes.now text.contents) }
    ensures known { OnOk result (known.new ≡ with_name known.old (text_at bytes.now text.contents)) }
    ensures many { IfOk result (λ many. many ≡ nat_lt most_files (length known.new)) }
{
    known.mention(text_of(bytes, text.contents))?;
    Ok(known.len() > 256)
}

/// Makes the files of strings known, up to the first string with which too many are known.
pub(crate) fn note(
    known: &mut FileNames,
    bytes: &[u8],
    texts: &[Quoted],
) -> Result<Option<Quoted>, NoMemory>
    requires { All (HasText bytes.now) texts.now }
    ensures { IfOk result (Notes known.old known.new bytes.now texts.now) }
{
    for text in texts {
        if note_text(known, bytes, *text)? {
            return Ok(Some(*text));
        }
    }
    Ok(None)
}
