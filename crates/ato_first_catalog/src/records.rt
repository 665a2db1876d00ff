//! The records of comma-separated text.
ghost use Rattle.std.specs.Prelude.{◌≡◌, IfOk, map, take};
ghost use Rattle.csv.specs.Records.{fields_of};
ghost use Rattle.ato_first_catalog.specs.Records.{records_of};

use ato_base::{List, NoMemory};
use csv::{ByteRecord, ReaderBuilder};
use std::alloc::Global;

/// The first so many records of some bytes, the header included, whatever their numbers of cells.
///
/// Bytes in memory are always read to their end, so a failed read is want of memory.
pub(crate) fn read_records(
    alloc: Global,
    bytes: &[u8],
    most: usize,
) -> Result<List<ByteRecord>, NoMemory>
    ensures { IfOk result (λ records. map fields_of records ≡ take most (records_of bytes.now)) }
{
    let reader = ReaderBuilder::new()
        .has_headers(false)
        .flexible(true)
        .from_reader(alloc, bytes);
    let mut records = List::new(alloc);
    for row in reader.into_byte_records() {
        if records.len() == most {
            return Ok(records);
        }
        let Ok(row) = row else { return Err(NoMemory) };
        records.push(row)?;
    }
    Ok(records)
}
