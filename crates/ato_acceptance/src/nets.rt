use crate::runs::built;
use ato_base::NoMemory;
use std::alloc::Global;
use std::test::Fail;

/// A netlist of one part with these lines of nets.
fn netlist_of(alloc: Global, nets: &str) -> Result<String, NoMemory> {
    let comp = "    (comp (ref \"U1\") (value \"E\") (footprint \"\") (path \"\"))\n";
    Ok(format!(in alloc;
        "(export (version \"ato-1\")\n  (components\n{comp}  )\n  (nets\n{nets}  )\n)\n"
    )?)
}

const EMPTY: &str = "(export (version \"ato-1\")\n  (components\n  )\n  (nets\n  )\n)\n";

const SUMMARY: &str =
    "result built\nnets 0\nparts 0\nslots 0\nvariables 0\nchecks 0\ngiven 0\nnodes 0\n";

const CERTIFICATE: &str = "ato-certificate 1\nverdict built\nsteps 20000\npick\nend\n";

/// Whether a component is built as an empty netlist.
fn is_no_part(alloc: Global, source: &str) -> Result<bool, NoMemory> {
    let (code, tray, sink) = built(alloc, source.as_bytes(), "build main.ato:E cat.csv")?;
    Ok(
        code == 0
            && sink.written() == SUMMARY.as_bytes()
            && tray.get("out.cert") == Some(CERTIFICATE.as_bytes())
            && tray.get("out.net") == Some(EMPTY.as_bytes()),
    )
}

#[test]
fn a_component_without_pins_is_no_part(rt: HostRuntime) -> Result<(), Fail> {
    for source in [
        "component E:\n    pass\n",
        "component E:\n    signal a ~ signal b\n    b ~ a\n",
    ]
    .iter()
    {
        assert!(rt; is_no_part(rt.alloc(), source)?, "{source}");
    }
    Ok(())
}

const ALONE: &str =
    "    (net (code \"1\") (name \":3\")\n      (node (ref \"U1\") (pin \"3\"))\n    )\n    (net (code \"2\") (name \":A_1\")\n      (node (ref \"U1\") (pin \"A_1\"))\n    )\n    (net (code \"3\") (name \":0\")\n      (node (ref \"U1\") (pin \"0\"))\n    )\n";

const BY_SIGNAL: &str =
    "    (net (code \"1\") (name \"a\")\n      (node (ref \"U1\") (pin \"1\"))\n      (node (ref \"U1\") (pin \"2\"))\n    )\n";

const CHAIN: &str =
    "    (net (code \"1\") (name \"b\")\n      (node (ref \"U1\") (pin \"5\"))\n      (node (ref \"U1\") (pin \"4\"))\n      (node (ref \"U1\") (pin \"7\"))\n    )\n    (net (code \"2\") (name \":9\")\n      (node (ref \"U1\") (pin \"9\"))\n      (node (ref \"U1\") (pin \"8\"))\n    )\n";

const SAME_TEXT: &str =
    "    (net (code \"1\") (name \":b\")\n      (node (ref \"U1\") (pin \"b\"))\n    )\n    (net (code \"2\") (name \"b\")\n      (node (ref \"U1\") (pin \"a\"))\n    )\n";

const RING: &str =
    "    (net (code \"1\") (name \":1\")\n      (node (ref \"U1\") (pin \"1\"))\n      (node (ref \"U1\") (pin \"2\"))\n      (node (ref \"U1\") (pin \"3\"))\n    )\n";

const MERGED: &str =
    "    (net (code \"1\") (name \"d\")\n      (node (ref \"U1\") (pin \"4\"))\n      (node (ref \"U1\") (pin \"3\"))\n    )\n";

/// Sources and their nets.
const NETS: &[(&str, &str)] = &[
    (
        "component E:\n    pin 3\n    signal s\n    pin A_1\n    pass\n    pin 3\n    pin 0\n",
        ALONE,
    ),
    (
        "component E:\n    signal a\n    a ~ pin 1\n    pin 2 ~ a\n",
        BY_SIGNAL,
    ),
    (
        "component E:\n    a ~ pin 1\n    pin 2 ~ pin 1\n    signal a\n",
        BY_SIGNAL,
    ),
    (
        "component E:\n    pin 5 ~ pin 4\n    pin 9\n    signal b\n    signal a ~ pin 4\n    b ~ a\n    signal z\n    pin 8 ~ pin 9\n    pin 7 ~ b\n",
        CHAIN,
    ),
    (
        "component E:\n    pin b ~ pin b\n    pin a ~ signal b\n",
        SAME_TEXT,
    ),
    (
        "component E:\n    pin 1 ~ pin 2\n    pin 2 ~ pin 3\n    pin 3 ~ pin 1\n    pin 1 ~ pin 2\n",
        RING,
    ),
    (
        "component E:\n    signal d ~ pin 4\n    signal c ~ pin 3\n    c ~ d\n",
        MERGED,
    ),
];

/// Whether a component of pins is built with these nets.
fn has_nets(alloc: Global, source: &str, nets: &str) -> Result<bool, NoMemory> {
    let (code, tray, _) = built(alloc, source.as_bytes(), "build main.ato:E cat.csv")?;
    let netlist = netlist_of(alloc, nets)?;
    Ok(code == 0 && tray.get("out.net") == Some(netlist.as_bytes()))
}

#[test]
fn pins_share_a_net_where_they_are_joined(rt: HostRuntime) -> Result<(), Fail> {
    for (source, nets) in NETS {
        assert!(rt; has_nets(rt.alloc(), source, nets)?, "{source}");
    }
    Ok(())
}
