use crate::runs::run_over;
use ato_base::NoMemory;
use std::alloc::Global;
use std::test::Fail;

const JOB: &str = "build main.ato:E cat.csv";

/// A component of one pin with a part of the kind `k`, of whose attribute `x` this is asserted.
fn source(alloc: Global, asserted: &str) -> Result<String, NoMemory> {
    Ok(format!(in alloc;
        "component E:\n    pin 1\n    x: dimensionless\n    kind = \"k\"\n    assert x within {asserted}\n"
    )?)
}

/// The certificate with this verdict and these lines.
fn certificate(alloc: Global, verdict: &str, lines: &str) -> Result<String, NoMemory> {
    Ok(format!(in alloc; "ato-certificate 1\nverdict {verdict}\nsteps 20000\n{lines}")?)
}

/// Rows of a catalogue, what is asserted, the picked part and its row.
const PICKED: &[(&str, &str, &str, u32)] = &[
    ("part,kind,x\nA,k,1 to 3\nB,k,2\n", "2 to 4", "B", 2),
    ("part,kind,x\nA,k,2 to 4\nB,k,3\n", "2 to 4", "A", 1),
    (
        "part,kind,x\nA,k,1 to 5\nB,k,2 to 4\nC,k,3",
        "2 to 4",
        "B",
        2,
    ),
    ("part,kind,x\nA,j,3\nB,k,\nC,k,3\nD,k,3\n", "3 to 3", "C", 3),
    ("part,kind,y,x,z\nA,k,9,3,\n", "1 to 3", "A", 1),
    (
        "part,kind,x\r\n\"A \"\"1\"\"\",k,00\r\n",
        "0 to 0",
        "A \\\"1\\\"",
        1,
    ),
    (
        "part,kind,x\nA,k,0 to 999999999999999999\n",
        "0 to 999999999999999999",
        "A",
        1,
    ),
];

/// The certificate of the part in this row.
fn pick_of(alloc: Global, row: u32) -> Result<String, NoMemory> {
    let lines = format!(in alloc; "pick {row}\ncheck 1\nholds\nend\n")?;
    certificate(alloc, "built", &lines)
}

/// The netlist with this part.
fn netlist_with(alloc: Global, part: &str) -> Result<String, NoMemory> {
    Ok(format!(in alloc;
        "(export (version \"ato-1\")\n  (components\n    (comp (ref \"U1\") (value \"{part}\") (footprint \"\") (path \"\"))\n  )\n  (nets\n    (net (code \"1\") (name \":1\")\n      (node (ref \"U1\") (pin \"1\"))\n    )\n  )\n)\n"
    )?)
}

/// Whether this part is picked, with what is printed and put.
fn is_picked(
    alloc: Global,
    rows: &str,
    asserted: &str,
    part: &str,
    row: u32,
) -> Result<bool, NoMemory> {
    let text = source(alloc, asserted)?;
    let cert = pick_of(alloc, row)?;
    let netlist = netlist_with(alloc, part)?;
    let (code, tray, sink) = run_over(alloc, text.as_bytes(), rows.as_bytes(), JOB)?;
    Ok(
        code == 0
            && sink.written() == BUILT.as_bytes()
            && tray.get("out.cert") == Some(cert.as_bytes())
            && tray.get("out.net") == Some(netlist.as_bytes()),
    )
}

const BUILT: &str =
    "result built\nnets 1\nparts 1\nslots 1\nvariables 1\nchecks 1\ngiven 0\nnodes 1\n";

#[test]
fn takes_the_first_part_that_always_fits(rt: HostRuntime) -> Result<(), Fail> {
    for (rows, asserted, part, row) in PICKED {
        assert!(rt;
            is_picked(rt.alloc(), rows, asserted, part, *row)?,
            "{rows}"
        );
    }
    Ok(())
}

/// The rows of the catalogue, what is asserted, and the tree with its number of nodes.
const REFUTED: &[(&str, &str, &str, u32)] = &[
    (
        "A,k,1 to 3\nB,k,2\n",
        "4 to 5",
        "row 1 1\nfails 1 0/1\nfails 1 0/1\n",
        3,
    ),
    ("A,k,2 to 5\n", "2 to 4", "fails 1 1/1\n", 1),
    (
        "A,j,3\nB,k,4 to 6\nC,k,8 to 9\nD,k,1 to 8\n",
        "5 to 8",
        "row 1 3\nrow 1 2\nfails 1 0/1\nfails 1 1/1\nfails 1 0/1\n",
        5,
    ),
    ("A,j,3\nB,k,\n", "1 to 9", "empty 1\n", 1),
    ("", "1 to 9", "empty 1\n", 1),
];

/// Whether these rows are refuted by this tree, with what is printed and put.
fn is_refuted(
    alloc: Global,
    rows: &str,
    asserted: &str,
    tree: &str,
    nodes: u32,
) -> Result<bool, NoMemory> {
    let text = source(alloc, asserted)?;
    let catalogue = format!(in alloc; "part,kind,x\n{rows}")?;
    let (code, tray, sink) = run_over(alloc, text.as_bytes(), catalogue.as_bytes(), JOB)?;
    let summary = format!(in alloc;
        "result refuted\nnets 1\nparts 1\nslots 1\nvariables 1\nchecks 1\ngiven 0\nnodes {nodes}\n"
    )?;
    let cert = certificate(alloc, "refuted", tree)?;
    Ok(
        code == 2
            && sink.written() == summary.as_bytes()
            && tray.get("out.cert") == Some(cert.as_bytes())
            && tray.get("out.net").is_none(),
    )
}

#[test]
fn refutes_where_no_part_fits(rt: HostRuntime) -> Result<(), Fail> {
    for (rows, asserted, tree, nodes) in REFUTED {
        assert!(rt;
            is_refuted(rt.alloc(), rows, asserted, tree, *nodes)?,
            "{rows}"
        );
    }
    Ok(())
}

const GOOD: &str =
    "component E:\n    pin 1\n    x: dimensionless\n    kind = \"k\"\n    assert x within 1 to 2\n";

/// Sources, rows and words, and the fault that is printed.
const REFUSED: &[(&str, &str, &str, &str)] = &[
    (
        "component E:\n    x: dimensionless\n    kind = \"k\"\n    assert y within 2 to 1\n",
        "",
        JOB,
        "fault F15 NoSuchMember main.ato:4:1\n",
    ),
    (
        "component E:\n    assert x within 2 to 1\n    x: dimensionless\n    kind = \"k\"\n    a ~ pin 1\n",
        "",
        JOB,
        "fault F15 NoSuchMember main.ato:5:1\n",
    ),
    (
        "component E:\n    assert x within 10 to 9\n    x: dimensionless\n    kind = \"k\"\n",
        "",
        JOB,
        "fault F29 EmptyRange main.ato:2:1\n",
    ),
    (
        "component E:\n    pin 1\n    kind = \"k\"\n",
        "",
        JOB,
        "fault F6 Syntax main.ato:1:1\n",
    ),
    (
        "component E:\n    pin 1\n    price: dimensionless\n",
        "",
        JOB,
        "fault F6 Syntax main.ato:3:1\n",
    ),
    (
        GOOD,
        "part,kind,x\nA,k,1\n",
        "build main.ato:E lost.csv",
        "fault F8 FileMissing word 2\n",
    ),
    (GOOD, "", JOB, "fault F20 NoHeader cat.csv:0:0\n"),
    (GOOD, "kind,part\n", JOB, "fault F20 NoHeader cat.csv:0:0\n"),
    (
        GOOD,
        "part,kind,x\nA,k,1\nA,k,2,3\n",
        JOB,
        "fault F22 BadRow cat.csv:2:0\n",
    ),
    (
        GOOD,
        "part,kind,x\nA,j,3 to 1\n",
        JOB,
        "fault F23 BadCell cat.csv:1:3\n",
    ),
    (
        GOOD,
        "part,kind,x\nA,k,1\nA,k,2\n",
        JOB,
        "fault F24 PartTwice cat.csv:2:1\n",
    ),
    (
        "component E:\n",
        "",
        "build main.ato:E lost.csv",
        "fault F6 Syntax main.ato:2:1\n",
    ),
];

/// Whether this fault is printed and nothing is put.
fn is_refused(
    alloc: Global,
    text: &str,
    rows: &str,
    line: &str,
    printed: &str,
) -> Result<bool, NoMemory> {
    let (code, tray, sink) = run_over(alloc, text.as_bytes(), rows.as_bytes(), line)?;
    Ok(
        code == 1
            && sink.written() == printed.as_bytes()
            && tray.get("out.net").is_none()
            && tray.get("out.cert").is_none(),
    )
}

#[test]
fn refuses_the_first_fault_of_the_input(rt: HostRuntime) -> Result<(), Fail> {
    for (text, rows, line, printed) in REFUSED {
        assert!(rt;
            is_refused(rt.alloc(), text, rows, line, printed)?,
            "{text}{rows}"
        );
    }
    Ok(())
}

#[test]
fn puts_at_the_name_that_the_words_say(rt: HostRuntime) -> Result<(), Fail> {
    let text = source(rt.alloc(), "1 to 2")?;
    let (code, tray, _) = run_over(
        rt.alloc(),
        text.as_bytes(),
        b"part,kind,x\nA,k,1\n",
        "build --out boards/e main.ato:E -- cat.csv",
    )?;
    assert_eq!(rt; code, 0);
    assert!(rt; tray.get("boards/e.net").is_some());
    assert!(rt; tray.get("boards/e.cert").is_some());
    assert!(rt; tray.get("out.net").is_none());
    Ok(())
}
