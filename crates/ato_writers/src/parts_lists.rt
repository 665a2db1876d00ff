ghost use Rattle.std.specs.Prelude.{◌≡◌, ◌∷◌, ◌++◌, ℕ, List, OnOk, IfOk, codes, map};
ghost use Rattle.std.specs.List.{flat_map};
ghost use Rattle.csv.specs.Writing.{default_writer, row_text};
ghost use Rattle.ato_writers.specs.CsvWriters.{Holds};
ghost use Rattle.ato_writers.specs.PartsLists.{part_text, parts_list};

use ato_base::{List, NoMemory, PartRow};
use csv::{Writer, WriterBuilder};
use std::alloc::Global;

/// Writes a record. A write into memory fails only where memory ran out.
fn push_record(writer: &mut Writer<Vec<u8>>, cells: &[&[u8]]) -> Result<(), NoMemory>
    ensures { OnOk result ((text : List ℕ) → Holds writer.old text → Holds writer.new (text ++ row_text default_writer (map (λ cell. cell.now) cells.now))) }
{
    match writer.write_fields(cells) {
        Ok(()) => Ok(()),
        Err(_) => Err(NoMemory),
    }
}

fn push_headings(writer: &mut Writer<Vec<u8>>) -> Result<(), NoMemory>
    ensures { OnOk result ((text : List ℕ) → Holds writer.old text
        → Holds writer.new (text ++ codes "designator,path,type,kind,part,package,footprint,price\n")) }
{
    push_record(
        writer,
        &[
            b"designator".as_slice(),
            b"path".as_slice(),
            b"type".as_slice(),
            b"kind".as_slice(),
            b"part".as_slice(),
            b"package".as_slice(),
            b"footprint".as_slice(),
            b"price".as_slice(),
        ],
    )
}

fn push_part(writer: &mut Writer<Vec<u8>>, row: &PartRow) -> Result<(), NoMemory>
    ensures { OnOk result ((text : List ℕ) → Holds writer.old text → Holds writer.new (text ++ part_text row.now)) }
{
    push_record(
        writer,
        &[
            row.designator.as_str().as_bytes(),
            row.path.as_str().as_bytes(),
            row.kind_name.as_str().as_bytes(),
            row.kind.as_str().as_bytes(),
            row.part.as_str().as_bytes(),
            row.package.as_str().as_bytes(),
            row.footprint.as_str().as_bytes(),
            row.price.as_str().as_bytes(),
        ],
    )
}

fn push_parts(writer: &mut Writer<Vec<u8>>, parts: &[PartRow]) -> Result<(), NoMemory>
    ensures { OnOk result ((text : List ℕ) → Holds writer.old text → Holds writer.new (text ++ flat_map part_text parts.now)) }
{
    for row in parts {
        push_part(writer, row)?;
    }
    Ok(())
}

/// The text of a parts list.
pub fn parts_text(alloc: Global, parts: &[PartRow]) -> Result<List<u8>, NoMemory>
    ensures { IfOk result (λ text. text ≡ parts_list parts.now) }
{
    let mut writer = WriterBuilder::new().from_writer(Vec::new(alloc));
    push_headings(&mut writer)?;
    push_parts(&mut writer, parts)?;
    match writer.into_inner() {
        Ok(text) => Ok(List::from_vec(text)),
        Err(_) => Err(NoMemory),
    }
}
