use ato_base::{FaultKind, Place, Refusal};
use ato_catalog::read_catalog;
use std::alloc::Global;

/// The kind of the fault in some bytes, with its row and column.
pub(crate) fn fault_of(alloc: Global, bytes: &[u8]) -> Option<(FaultKind, u32, u32)> {
    match read_catalog(alloc, bytes) {
        Err(Refusal::Fault(fault)) => match fault.at {
            Place::Cell { row, column } => Some((fault.kind, row, column)),
            _ => None,
        },
        _ => None,
    }
}

/// Whether some bytes have this fault.
pub(crate) fn has_fault(
    alloc: Global,
    bytes: &[u8],
    kind: FaultKind,
    row: u32,
    column: u32,
) -> bool {
    fault_of(alloc, bytes) == Some((kind, row, column))
}

/// How many attribute columns and rows some bytes hold, if they are a catalogue.
pub(crate) fn size_of(alloc: Global, bytes: &[u8]) -> Option<(usize, usize)> {
    match read_catalog(alloc, bytes) {
        Ok(catalog) => Some((catalog.columns.len(), catalog.rows.len())),
        Err(_) => None,
    }
}
