use crate::{Catalog, CatalogRow, Column, read_catalog};
use ato_base::{FaultKind, Place, Refusal};
use ato_frac::Frac;
use std::test::Fail;

/// The kind of the fault in some bytes, with its row and column.
fn fault_of(rt: &HostRuntime, bytes: &[u8]) -> Option<(FaultKind, u32, u32)> {
    match read_catalog(rt.alloc(), bytes) {
        Err(Refusal::Fault(fault)) => match fault.at {
            Place::Cell { row, column } => Some((fault.kind, row, column)),
            _ => None,
        },
        _ => None,
    }
}

/// The numerators and denominators of the ends of a range, if there is one.
type Range = Option<((i128, i128), (i128, i128))>;

/// The ends of a range.
fn ends(cell: Option<(Frac, Frac)>) -> Range {
    cell.map(|(low, high)| ((low.numer(), low.denom()), (high.numer(), high.denom())))
}

use FaultKind::{BadCell, BadRow, NoHeader, PartTwice};

/// Bytes, and the kind, the row and the column of their fault.
const FAULTS: &[(&[u8], FaultKind, u32, u32)] = &[
    (b"", NoHeader, 0, 0),
    (b"\n\r\n", NoHeader, 0, 0),
    (b"part", NoHeader, 0, 0),
    (b"kind,part\n", NoHeader, 0, 0),
    (b"part,kind,\n", NoHeader, 0, 0),
    (b"part,kind, x\n", NoHeader, 0, 0),
    (b"part,kind,x,y,x\n", NoHeader, 0, 0),
    (b"part,kind,a,b,c,d,e,f,g,h,i\n", NoHeader, 0, 0),
    (b"part,kind,price\n", NoHeader, 0, 0),
    (b"part,kind,assert\n", NoHeader, 0, 0),
    (b"part,kind,1x\n", NoHeader, 0, 0),
    (b"part,kind,\xFF\n", NoHeader, 0, 0),
    (b"part,kind,\xC3\xA4\n", NoHeader, 0, 0),
    (b"\xEF\xBB\xBF\xEF\xBB\xBFpart,kind\n", NoHeader, 0, 0),
    (b"part,kind,x\nA,k\n", BadRow, 1, 0),
    (b"part,kind\nA,k,1\n", BadRow, 1, 0),
    (b"part,kind\nA,k\n\n\nB", BadRow, 2, 0),
    (b"part,kind\nA,k\nB,\xFF\n", BadRow, 2, 0),
    (b"part,kind,x\nA,\"k,1\nB,k,2\n", BadRow, 1, 0),
    (b"part,kind\n,k\n", BadCell, 1, 1),
    (b"part,kind\nA,\n", BadCell, 1, 2),
    (b"part,kind,x\nA,k,3 to 1\n", BadCell, 1, 3),
    (b"part,kind,x\nA,k,1234567890123456789\n", BadCell, 1, 3),
    (b"part,kind,x\nA,k,1 to  2\n", BadCell, 1, 3),
    (b"part,kind,x,y,z\nA,k,1,-1,1.5\n", BadCell, 1, 4),
    (b"part,kind\nA,k\nB,k\nA,m\n", PartTwice, 3, 1),
    // the earlier row comes first, and in a row its cells come before its part
    (b"part,kind,x\nA,k,1\nA,k,one\nA\n", BadCell, 2, 3),
];

#[test]
fn bytes_that_are_no_catalogue(rt: HostRuntime) {
    for (number, (bytes, kind, row, column)) in FAULTS.iter().enumerate() {
        let want = Some((*kind, *row, *column));
        assert!(rt; fault_of(&rt, bytes) == want, "case {number}");
    }
}

#[test]
fn rows_up_to_the_limit(rt: HostRuntime) -> Result<(), Fail> {
    let alloc = rt.alloc();
    let mut text = String::new(alloc);
    text.push_str("part,kind\n")?;
    for number in 1..1001 {
        let line = format!(in alloc; "P{number},k\n")?;
        text.push_str(line.as_str())?;
    }
    match read_catalog(alloc, text.as_bytes()) {
        Ok(catalog) => assert!(rt; catalog.rows.len() == 1_000),
        Err(_) => assert!(rt; false),
    }
    // neither its cells nor its part are looked at
    text.push_str("P1\n")?;
    let found = fault_of(&rt, text.as_bytes());
    assert!(rt; found == Some((FaultKind::TooManyRows, 1001, 0)));
    Ok(())
}

#[test]
fn a_header_alone(rt: HostRuntime) {
    match read_catalog(rt.alloc(), b"part,kind,x".as_slice()) {
        Ok(catalog) => assert!(rt; catalog.columns.len() == 1 && catalog.rows.len() == 0),
        Err(_) => assert!(rt; false),
    }
}

/// Whether a row of the kind `k` has this part and these two ranges.
fn is_row(row: &CatalogRow, part: &str, x: Range, y: Range) -> bool {
    let named = row.part.as_str() == part && row.kind.as_str() == "k";
    let unnamed = row.package.as_str() == "" && row.footprint.as_str() == "" && row.price.is_none();
    match row.cells.as_slice() {
        [first, second] => named && unnamed && ends(*first) == x && ends(*second) == y,
        _ => false,
    }
}

/// Whether a column has this name and this place.
fn is_column(column: &Column, name: &str, at: u32) -> bool {
    column.name.as_str() == name && column.at == at
}

#[test]
fn a_mark_line_ends_quotes_and_no_last_end(rt: HostRuntime) {
    let bytes =
        b"\xEF\xBB\xBFpart,kind,x,y_2\r\n\"A, \"\"a\"\"\",k,1 to 3,\r\n\r\nB,\"k\",007,\"0 to 999999999999999999\"";
    let Ok(Catalog { columns, rows }) = read_catalog(rt.alloc(), bytes.as_slice()) else {
        assert!(rt; false);
        return;
    };
    let columns = columns.as_slice();
    assert!(rt; columns.len() == 2);
    assert!(rt; is_column(&columns[0], "x", 3) && is_column(&columns[1], "y_2", 4));
    let rows = rows.as_slice();
    assert!(rt; rows.len() == 2);
    assert!(rt; is_row(&rows[0], "A, \"a\"", Some(((1, 1), (3, 1))), None));
    let last = Some(((0, 1), (999_999_999_999_999_999, 1)));
    assert!(rt; is_row(&rows[1], "B", Some(((7, 1), (7, 1))), last));
}
