//! The rows of the parts list, before parts are picked.
ghost use Rattle.std.specs.Prelude.{◌≡◌, ℕ, [], List, None, IfOk, codes, slice_get, unwrap_or};
ghost use Rattle.std.specs.Option.{option_and_then};
ghost use Rattle.ato_files.specs.Blocks.{block_of};
ghost use Rattle.ato_files.specs.Programs.{AreBlocks};
ghost use Rattle.ato_instance_tree.specs.declared.tree.Tree.{Tree};
ghost use Rattle.ato_instance_tree.specs.Elaborated.{IsElaborated, IsLoaded};
ghost use Rattle.ato_instance_tree.specs.TreeFaults.{Limits};
ghost use Rattle.ato_links.specs.Linked.{IsTreeOf};
ghost use Rattle.ato_links.specs.Parts as links;
ghost use Rattle.ato_netlists.specs.Known.{IsSound};
ghost use Rattle.ato_netlists.specs.Parts.{AreParts, AreStrings, IsPart, held};

use crate::designators::{Designators, text_of};
use crate::parts::{Part, parts};
use crate::paths::path_text;
use crate::strings::Strings;
use ato_base::{List, NoMemory, PartRow, Text};
use ato_files::Program;
use ato_instance_tree::{Node, Tree};
use std::alloc::Global;

/// What the rows are made from.
#[derive(Clone, Copy)]
pub(crate) struct Ground<'a, 's> {
    pub(crate) alloc: Global,
    /// The program.
    pub(crate) program: &'a Program,
    /// The nodes of the tree.
    pub(crate) nodes: &'a [Node],
    /// The strings that count.
    pub(crate) strings: &'a Strings<'s>,
}

/// The string that counts for a name of an instance, or an empty text.
fn text_or_none(ground: &Ground<'_, '_>, instance: u32, name: &str) -> Result<Text, NoMemory>
    ensures { IfOk result (λ text. text ≡ unwrap_or (held ground.now.strings.now instance name.now) []) }
{
    match ground.strings.get(instance, name) {
        Some(text) => text_of(ground.alloc, text),
        None => Ok(Text::new(ground.alloc)),
    }
}

/// The same, but an empty text for what is to be picked.
fn unless_slot(ground: &Ground<'_, '_>, part: Part, name: &str) -> Result<Text, NoMemory>
    ensures { IfOk result (λ text. text
        ≡ links.unless_slot part.slot (unwrap_or (held ground.now.strings.now part.node name.now) [])) }
{
    if part.slot {
        Ok(Text::new(ground.alloc))
    } else {
        text_or_none(ground, part.node, name)
    }
}

/// The name of a block.
fn block_name(ground: &Ground<'_, '_>, block: u32) -> Result<Text, NoMemory>
    ensures { IfOk result (λ text. AreBlocks ground.now.program.now.files ground.now.program.now.blocks
        → text ≡ unwrap_or (option_and_then (λ b. slice_get ground.now.program.now.names b.block.name.name.0)
        (block_of ground.now.program.now.files block)) []) }
{
    let Some(declared) = ground.program.declared_block(block) else {
        return Ok(Text::new(ground.alloc));
    };
    match ground.program.names.text(declared.name.name) {
        Some(text) => Text::copy(ground.alloc, text),
        None => Ok(Text::new(ground.alloc)),
    }
}

/// The name of the type of an instance.
fn type_name(ground: &Ground<'_, '_>, instance: u32) -> Result<Text, NoMemory>
    ensures { IfOk result (λ text. AreBlocks ground.now.program.now.files ground.now.program.now.blocks
        → text ≡ links.type_name ground.now.program.now.files ground.now.program.now.names
        (option_and_then (λ n. n.block) (slice_get ground.now.nodes.now instance))) }
{
    match ground.nodes.get(instance as usize) {
        Some(node) => match node.block {
            Some(block) => block_name(ground, block),
            None => Ok(Text::new(ground.alloc)),
        },
        None => Ok(Text::new(ground.alloc)),
    }
}

/// The row of a part with a designator.
fn part_row(ground: &Ground<'_, '_>, part: Part, designator: Text) -> Result<PartRow, NoMemory>
    ensures { IfOk result (λ row. (tree : Tree) (entry : ℕ) (path : List ℕ) → IsSound ground.now.program.now tree entry → ground.now.nodes.now ≡ tree.nodes
        → AreStrings ground.now.program.now entry ground.now.strings.now → IsPart ground.now.program.now entry path part
        → row ≡ links.part_row ground.now.program.now.files entry ground.now.program.now.names path designator) }
{
    let path = path_text(ground.alloc, &ground.program.names, ground.nodes, part.node)?;
    let kind_name = type_name(ground, part.node)?;
    let kind = text_or_none(ground, part.node, "kind")?;
    let picked = unless_slot(ground, part, "part")?;
    let package = unless_slot(ground, part, "package")?;
    let footprint = unless_slot(ground, part, "footprint")?;
    let price = Text::new(ground.alloc);
    Ok(PartRow {
        designator,
        path,
        kind_name,
        kind,
        part: picked,
        package,
        footprint,
        price,
    })
}

/// The prefix of the designator of a part.
fn prefix<'a>(strings: &Strings<'a>, part: Part) -> &'a [u8]
    ensures { result.now ≡ unwrap_or (held strings.now part.node (codes "designator_prefix")) (codes "U") }
{
    match strings.get(part.node, "designator_prefix") {
        Some(text) => text,
        None => "U".as_bytes(),
    }
}

/// The rows of parts.
fn rows(ground: &Ground<'_, '_>, parts: &[Part]) -> Result<List<PartRow>, NoMemory>
    ensures { IfOk result (λ rows. (tree : Tree) (entry : ℕ) → IsSound ground.now.program.now tree entry → ground.now.nodes.now ≡ tree.nodes
        → AreStrings ground.now.program.now entry ground.now.strings.now → AreParts ground.now.program.now entry parts.now
        → rows ≡ links.part_rows ground.now.program.now.files entry ground.now.program.now.names) }
{
    let mut designators = Designators::new(ground.alloc);
    let mut rows = List::new(ground.alloc);
    for part in parts {
        let designator = designators.next(ground.alloc, prefix(ground.strings, *part))?;
        let row = part_row(ground, *part, designator)?;
        rows.push(row)?;
    }
    Ok(rows)
}

/// The rows of the parts list of a tree without a fault, in tree order, before parts are picked: the designator, the path, the name of
/// the type and the strings that count. Of what is to be picked, `part`, `package` and `footprint` are empty, as the price of each is.
///
/// # Errors
///
/// Where memory runs out.
pub fn part_rows(alloc: Global, program: &Program, tree: &Tree) -> Result<List<PartRow>, NoMemory>
    requires loaded { IsLoaded program.now }
    requires tree { IsTreeOf program.now tree.now }
    requires sound { tree.now.first ≡ None }
    ensures { IfOk result (λ rows. (most : Limits) (name : List ℕ) (is : IsElaborated most program.now name tree.now)
        → rows ≡ links.part_rows program.now.files is.entry program.now.names) }
{
    let strings = Strings::of(alloc, program, tree)?;
    let parts = parts(alloc, tree, &strings)?;
    let nodes = tree.nodes.as_slice();
    let ground = Ground {
        alloc,
        program,
        nodes,
        strings: &strings,
    };
    rows(&ground, parts.as_slice())
}
