use crate::places::has_fault;
use FaultKind::{BadCell, BadRow, ColumnTwice, NoHeader, PartTwice};
use ato_base::FaultKind;

/// Bytes, and the kind, the row and the column of their fault.
const FAULTS: &[(&[u8], FaultKind, u32, u32)] = &[
    // no header
    (b"", NoHeader, 0, 0),
    (b"\n\r\n\r", NoHeader, 0, 0),
    (b"part", NoHeader, 0, 0),
    (b"kind,x\n", NoHeader, 0, 0),
    (b"Part,kind\n", NoHeader, 0, 0),
    (b"part, kind\n", NoHeader, 0, 0),
    (b",part,kind\n", NoHeader, 0, 0),
    (b"part,\"\",kind\n", NoHeader, 0, 0),
    (b"part,kind,\n", NoHeader, 0, 0),
    (b"\xFF,part,kind\n", NoHeader, 0, 0),
    (b"part,kind,#\xFF\n", NoHeader, 0, 0),
    (b"\"part,kind\n", NoHeader, 0, 0),
    // the third byte order mark belongs to the heading
    (
        b"\xEF\xBB\xBF\xEF\xBB\xBF\xEF\xBB\xBFpart,kind\n",
        NoHeader,
        0,
        0,
    ),
    // a missing heading comes before one that stands twice
    (b"part,x,x\n", NoHeader, 0, 0),
    // the first column whose heading stands before it
    (b"part,part,kind\n", ColumnTwice, 0, 2),
    (b"part,x,kind,x,y\n", ColumnTwice, 0, 4),
    (b"part,price,kind,x,price\n", ColumnTwice, 0, 5),
    (b"x,part,kind,y,y,x\n", ColumnTwice, 0, 5),
    (b"part,kind,x,x\nA\n", ColumnTwice, 0, 4),
    // another number of cells, or not UTF-8
    (b"part,kind,x\nA,k\nB,k,\nC,k,\n", BadRow, 1, 0),
    (b"part,kind,x\nA,k,\nB,k,,\nC,k,\n", BadRow, 2, 0),
    (b"part,kind,x\nA,k,\nB,k,\nC", BadRow, 3, 0),
    (b"part,kind\nA,k\n\n\r\n\nB", BadRow, 2, 0),
    (b"part,kind,x\nA,\"k,1\nB,k,2\n", BadRow, 1, 0),
    (b"part,kind,#note\nA,k,\xFF\n", BadRow, 1, 0),
    (b"\"part\",kind\n\xC3,k\n", BadRow, 1, 0),
    // this comes before a bad cell of the same row, and one of an earlier row before it
    (b"part,kind,x,#note\n,,z,\xFF\n", BadRow, 1, 0),
    (b"part,kind,x\n,,z,\n", BadRow, 1, 0),
    (b"part,kind,x\nA,k,z\nB\n", BadCell, 1, 3),
    // a part of an earlier row
    (b"part,kind\nA,k\nA,m\n", PartTwice, 2, 1),
    (
        b"kind,x,part\nk,,A\nk,,B\nk,,C\nk,,B\nk,,A\n",
        PartTwice,
        4,
        3,
    ),
    (b"part,kind\nA,k\n\"A\",k", PartTwice, 2, 1),
    // this comes after a bad cell of the same row
    (b"part,kind,x\nA,k,\nA,k,z\n", BadCell, 2, 3),
];

#[test]
fn bytes_that_are_no_catalogue(rt: HostRuntime) {
    for (number, (bytes, kind, row, column)) in FAULTS.iter().enumerate() {
        assert!(rt;
            has_fault(rt.alloc(), bytes, *kind, *row, *column),
            "case {number}"
        );
    }
}
