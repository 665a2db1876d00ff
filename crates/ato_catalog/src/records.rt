//! The records of comma-separated text.
ghost use Rattle.std.specs.Prelude.{◌≡◌, IfOk, map, take};
ghost use Rattle.csv.specs.Reading.{default_config, records, strip_bom};
ghost use Rattle.csv.specs.Records.{fields_of};
ghost use Rattle.ato_catalog.specs.Records.{records_of};

use ato_base::{List, NoMemory};
use csv::{ByteRecord, ReaderBuilder};
use std::alloc::Global;

/// The bytes behind one byte order mark, if they begin with it.
#[tactic(auto, unfolding(csv::specs::Reading::strip_bom))]
fn without_mark(bytes: &[u8]) -> &[u8]
    ensures { result.now ≡ strip_bom bytes.now }
{
    match bytes {
        [0xEF, 0xBB, 0xBF, rest @ ..] => rest,
        _ => bytes,
    }
}

/// The first so many records of some bytes, as `csv` reads them, whatever their numbers of cells.
///
/// Bytes in memory are always read to their end, so a failed read is want of memory.
fn read_marked(alloc: Global, bytes: &[u8], most: usize) -> Result<List<ByteRecord>, NoMemory>
    ensures { IfOk result (λ found. map fields_of found ≡ take most (records default_config (strip_bom bytes.now))) }
{
    let reader = ReaderBuilder::new()
        .has_headers(false)
        .flexible(true)
        .from_reader(alloc, bytes);
    let mut records = List::new(alloc);
    for row in reader.into_byte_records() {
        if records.len() == most {
            return Ok(records);
        }
        let Ok(row) = row else { return Err(NoMemory) };
        records.push(row)?;
    }
    Ok(records)
}

/// The first so many records of a catalogue's bytes, the header included.
pub(crate) fn read_records(
    alloc: Global,
    bytes: &[u8],
    most: usize,
) -> Result<List<ByteRecord>, NoMemory>
    ensures { IfOk result (λ found. map fields_of found ≡ take most (records_of bytes.now)) }
{
    read_marked(alloc, without_mark(bytes), most)
}
