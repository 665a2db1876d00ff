use crate::runs::built;
use ato_base::NoMemory;
use std::alloc::Global;
use std::test::Fail;

const PINS: &str = "component T:\n    pin 1\n";

/// Sources, words, and what is printed.
const FAULTS: &[(&str, &str, &str)] = &[
    (
        "",
        "build main.ato:T cat.csv",
        "fault F11 NameUnknown word 1\n",
    ),
    (
        PINS,
        "build main.ato:U cat.csv",
        "fault F11 NameUnknown word 1\n",
    ),
    (
        PINS,
        "build lost.ato:T cat.csv",
        "fault F8 FileMissing word 1\n",
    ),
    (
        "component T:\n",
        "build main.ato:T cat.csv",
        "fault F6 Syntax main.ato:2:1\n",
    ),
    (
        "component T:\n    pin 1\n    a ~ b ~ pin 1\n",
        "build main.ato:T cat.csv",
        "fault F6 Syntax main.ato:3:1\n",
    ),
    (
        "component T:\n    a ~ pin 1\n    pin 2",
        "build main.ato:T cat.csv",
        "fault F6 Syntax main.ato:3:1\n",
    ),
    (
        "component T:\n    signal a\n    a ~ pin 1\n    pin 2 ~ b\n    c ~ a\n",
        "build main.ato:T cat.csv",
        "fault F15 NoSuchMember main.ato:4:1\n",
    ),
    (
        "component T:\n    pin a ~ a\n",
        "build main.ato:U cat.csv",
        "fault F11 NameUnknown word 1\n",
    ),
];

/// Whether a run ends with a fault, prints this, and puts no netlist.
fn is_refused(alloc: Global, source: &[u8], line: &str, printed: &str) -> Result<bool, NoMemory> {
    let (code, tray, sink) = built(alloc, source, line)?;
    Ok(code == 1 && sink.written() == printed.as_bytes() && tray.get("out.net").is_none())
}

#[test]
fn refuses_bad_input_and_puts_nothing(rt: HostRuntime) -> Result<(), Fail> {
    for (source, line, printed) in FAULTS {
        assert!(rt;
            is_refused(rt.alloc(), source.as_bytes(), line, printed)?,
            "{source}"
        );
    }
    Ok(())
}

#[test]
fn refuses_a_file_beyond_the_limit(rt: HostRuntime) -> Result<(), Fail> {
    let alloc = rt.alloc();
    for (size, printed) in [
        (262_144, "fault F6 Syntax main.ato:1:1\n"),
        (262_145, "fault F9 FileTooLong word 1\n"),
    ]
    .iter()
    {
        let source = vec![in alloc; b'x'; *size]?;
        assert!(rt;
            is_refused(alloc, &source, "build main.ato:T cat.csv", printed)?,
            "{size}"
        );
    }
    Ok(())
}
