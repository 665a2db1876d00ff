use crate::parts_text;
use ato_base::{List, NoMemory, PartRow, Text};
use csv::{ByteRecord, ReaderBuilder};
use std::alloc::Global;
use std::test::Fail;

/// The cells of a part, from its designator to its price.
type Cells = [&'static str; 8];

const HEADINGS: &str = "designator,path,type,kind,part,package,footprint,price\n";

/// Parts, and the lines of their text after the headings.
const LISTS: &[(&[Cells], &str)] = &[
    (&[], ""),
    (
        &[[
            "R1", "r", "Resistor", "resistor", "R10K", "0402", "R_0402", "12",
        ]],
        "R1,r,Resistor,resistor,R10K,0402,R_0402,12\n",
    ),
    (&[["", "", "", "", "", "", "", ""]], ",,,,,,,\n"),
    (
        &[["a,b", ",", "x\"y", "\"", "\"\"", "l\nm", "c\rd", "\r\n"]],
        "\"a,b\",\",\",\"x\"\"y\",\"\"\"\",\"\"\"\"\"\",\"l\nm\",\"c\rd\",\"\r\n\"\n",
    ),
    (
        &[[
            "\u{3A9}1",
            "\u{411}\u{43B}\u{43E}\u{43A}",
            "\u{96FB}\u{963B}",
            "'",
            ";",
            "\\",
            "a b",
            " ",
        ]],
        "\u{3A9}1,\u{411}\u{43B}\u{43E}\u{43A},\u{96FB}\u{963B},',;,\\,a b, \n",
    ),
    (
        &[
            ["U1", "a.b", "T", "", "", "", "", ""],
            ["U2", "a.c", "T", "k", "P", "", "", "0"],
        ],
        "U1,a.b,T,,,,,\nU2,a.c,T,k,P,,,0\n",
    ),
];

fn row_of(alloc: Global, cells: &Cells) -> Result<PartRow, NoMemory> {
    Ok(PartRow {
        designator: Text::copy(alloc, cells[0])?,
        path: Text::copy(alloc, cells[1])?,
        kind_name: Text::copy(alloc, cells[2])?,
        kind: Text::copy(alloc, cells[3])?,
        part: Text::copy(alloc, cells[4])?,
        package: Text::copy(alloc, cells[5])?,
        footprint: Text::copy(alloc, cells[6])?,
        price: Text::copy(alloc, cells[7])?,
    })
}

fn text_of(alloc: Global, parts: &[Cells]) -> Result<List<u8>, NoMemory> {
    let mut rows = List::new(alloc);
    for cells in parts {
        rows.push(row_of(alloc, cells)?)?;
    }
    parts_text(alloc, rows.as_slice())
}

#[test]
fn lists_have_their_texts(rt: HostRuntime) -> Result<(), Fail> {
    for (parts, lines) in LISTS {
        let text = text_of(rt.alloc(), *parts)?;
        let wanted = format!(in rt.alloc(); "{HEADINGS}{lines}")?;
        assert!(rt; text.as_slice() == wanted.as_bytes());
    }
    Ok(())
}

#[test]
fn texts_are_read_back(rt: HostRuntime) -> Result<(), Fail> {
    for (parts, _) in LISTS {
        let text = text_of(rt.alloc(), *parts)?;
        let mut reader = ReaderBuilder::new().from_reader(rt.alloc(), text.as_slice());
        let mut record = ByteRecord::new(rt.alloc());
        for cells in *parts {
            assert!(rt; reader.read_byte_record(&mut record)?);
            assert!(rt; record.len() == 8);
            for at in 0..8 {
                assert!(rt; record.get(at) == Some(cells[at].as_bytes()));
            }
        }
        assert!(rt; !reader.read_byte_record(&mut record)?);
    }
    Ok(())
}
