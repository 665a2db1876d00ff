//! The names of a file that are equal to an earlier one.
ghost use Rattle.std.specs.Prelude.{◌≡◌, [], ◌∷◌, ◌++◌, OnOk, IfOk, map};
ghost use Rattle.std.specs.List.{flat_map};
ghost use Rattle.ato_base.specs.declared.faults.FaultKind.TheVariants as kinds;
ghost use Rattle.ato_files.specs.Blocks.{head_imports};
ghost use Rattle.ato_files.specs.Faults.{fault};
ghost use Rattle.ato_files.specs.NameFaults.{item_names, repeated};
ghost use Rattle.ato_files.specs.Noted.{noted};

use crate::least::Least;
use crate::number_set::NumberSet;
use ato_ast::{Head, Item, Named};
use ato_base::{FaultKind, List, NoMemory};
use std::alloc::Global;

/// Puts names behind others.
fn push_names(out: &mut List<Named>, names: &[Named]) -> Result<(), NoMemory>
    ensures { OnOk result (out.new ≡ out.old ++ names.now) }
{
    for name in names {
        out.push(*name)?;
    }
    Ok(())
}

/// Puts the names that a head imports behind others.

fn push_head_names(out: &mut List<Named>, head: &Head) -> Result<(), NoMemory>
    ensures { OnOk result (out.new ≡ out.old ++ map (λ i. i.0) (head_imports head.now)) }
{
    match head {
        Head::ImportFrom(name, _, _) => out.push(*name),
        Head::Import(names, _) => push_names(out, names.as_slice()),
        Head::From(_, names, _) => push_names(out, names.as_slice()),
        Head::Docs(_) | Head::Pass(_) => Ok(()),
    }
}

/// Puts the names that some heads import behind others.
fn push_heads_names(out: &mut List<Named>, heads: &[Head]) -> Result<(), NoMemory>
    ensures { OnOk result (out.new ≡ out.old ++ flat_map (λ h. map (λ i. i.0) (head_imports h)) heads.now) }
{
    for head in heads {
        push_head_names(out, head)?;
    }
    Ok(())
}

/// Puts the names of a piece of a file behind others.
fn push_item_names(out: &mut List<Named>, item: &Item) -> Result<(), NoMemory>
    ensures { OnOk result (out.new ≡ out.old ++ item_names item.now) }
{
    match item {
        Item::Heads(line) => push_heads_names(out, line.parts.as_slice()),
        Item::Block(block) => out.push(block.name),
    }
}

/// The names of a file: those that it imports and those of its blocks.
fn file_names(alloc: Global, items: &[Item]) -> Result<List<Named>, NoMemory>
    ensures { IfOk result (λ names. names ≡ flat_map item_names items.now) }
{
    let mut out = List::new(alloc);
    for item in items {
        push_item_names(&mut out, item)?;
    }
    Ok(out)
}

/// Notes the names that are equal to an earlier one.
fn note_repeated(alloc: Global, names: &[Named], least: &mut Least) -> Result<(), NoMemory>
    ensures { OnOk result (least.new ≡ noted least.old (map (λ n. fault kinds.NameTwice n.at) (repeated [] names.now))) }
{
    let mut seen = NumberSet::new(alloc);
    for name in names {
        least.note_if(seen.contains(name.name.0), FaultKind::NameTwice, name.at);
        seen.insert(name.name.0)?;
    }
    Ok(())
}

/// Notes the names of a file that are equal to an earlier one.
pub(crate) fn note_file_names(
    alloc: Global,
    items: &[Item],
    least: &mut Least,
) -> Result<(), NoMemory>
    ensures { OnOk result (least.new ≡ noted least.old (map (λ n. fault kinds.NameTwice n.at) (repeated [] (flat_map item_names items.now)))) }
{
    let names = file_names(alloc, items)?;
    note_repeated(alloc, names.as_slice(), least)
}
