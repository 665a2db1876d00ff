use crate::places::{has_fault, size_of};
use ato_base::{FaultKind, Refusal};
use ato_catalog::{Catalog, CatalogRow, read_catalog};
use ato_frac::{Coin, Frac};
use ato_units::Quantity;
use std::alloc::Global;

/// Bytes, and how many attribute columns and rows they hold.
const GOOD: &[(&[u8], usize, usize)] = &[
    (b"part,kind", 0, 0),
    (b"kind,part\nk,A\n", 0, 1),
    (b"#,part,#,kind,#,x y,1\n\xC3\xA4,A,,k,\"a\nb\",1V,\n", 2, 1),
    (b"\xEF\xBB\xBFpart,kind\n", 0, 0),
    (b"\xEF\xBB\xBF\xEF\xBB\xBFpart,kind\n", 0, 0),
    (b"part,kind\rA,k\rB,k\r", 0, 2),
    (b"\r\npart,kind\r\n\r\nA,k\r\n\n\r\nB,k", 0, 2),
    (b"part,kind\nA,k\nA ,k\n A,k\na,k\n", 0, 4),
    (b"part,kind,part \n\"A,\"\"\",k,\n", 1, 1),
];

#[test]
fn bytes_that_are_catalogues(rt: HostRuntime) {
    for (number, (bytes, columns, rows)) in GOOD.iter().enumerate() {
        assert!(rt;
            size_of(rt.alloc(), bytes) == Some((*columns, *rows)),
            "case {number}"
        );
    }
}

/// Whether a quantity has these whole ends.
fn has_ends(cell: Option<Quantity>, low: i128, high: i128) -> bool {
    match cell {
        None => false,
        Some(quantity) => {
            Frac::new(low, 1) == Some(quantity.low) && Frac::new(high, 1) == Some(quantity.high)
        }
    }
}

/// Whether a row is the resistor of the example.
fn is_resistor(row: &CatalogRow) -> bool {
    let texts = row.part.as_str() == "R10K"
        && row.kind.as_str() == "resistor"
        && row.package.as_str() == "0402"
        && row.footprint.as_str() == "R_0402";
    match row.cells.as_slice() {
        [cell] => texts && row.price == Some(Coin(12)) && has_ends(*cell, 9900, 10100),
        _ => false,
    }
}

/// Whether the catalogue is the example.
fn is_example(catalog: &Catalog) -> bool {
    match (catalog.columns.as_slice(), catalog.rows.as_slice()) {
        ([column], [row]) => {
            column.name.as_str() == "resistance" && column.at == 6 && is_resistor(row)
        }
        _ => false,
    }
}

fn reads_example(alloc: Global) -> bool {
    match read_catalog(
        alloc,
        b"part,kind,package,footprint,price,resistance\nR10K,resistor,0402,R_0402,12,10kohm +/- 1%\n".as_slice(),
    ) {
        Ok(catalog) => is_example(&catalog),
        Err(Refusal::Fault(_)) => false,
        Err(Refusal::NoMemory) => false,
    }
}

#[test]
fn one_resistor(rt: HostRuntime) {
    assert!(rt; reads_example(rt.alloc()));
}

/// Bytes, and the kind, the row and the column of their fault.
const RESISTORS: &[(&[u8], FaultKind, u32, u32)] = &[
    (
        b"part,kind,package,footprint,price,resistance\nR10K,resistor,0402,R_0402,12,10kohm +/- 1%\nR10K,resistor,0402,R_0402,12,10kohm +/- 1%\n",
        FaultKind::PartTwice,
        2,
        1,
    ),
    (
        b"part,kind,package,footprint,price,resistance\nR10K,resistor,0402,R_0402,12,10kohm +/- 1%\nA,k,0402\n",
        FaultKind::BadRow,
        2,
        0,
    ),
    (
        b"part,kind,package,footprint,price,resistance\nR10K,resistor,0402,R_0402,12,10kohn\n",
        FaultKind::BadCell,
        1,
        6,
    ),
];

#[test]
fn faults_of_the_resistor(rt: HostRuntime) {
    for (number, (bytes, kind, row, column)) in RESISTORS.iter().enumerate() {
        assert!(rt;
            has_fault(rt.alloc(), bytes, *kind, *row, *column),
            "case {number}"
        );
    }
}
