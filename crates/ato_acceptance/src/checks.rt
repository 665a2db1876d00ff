use crate::runs::{code_of, files, run_over, wide_sink};
use ato_base::{List, NoMemory, Text};
use ato_outside::{MemShelf, MemSink, SureTray};
use std::alloc::Global;
use std::test::Fail;

const JOB: &str = "check main.ato:E cat.csv out.cert";

/// A component of one pin with a part of the kind `k`, of whose attribute `x` this is asserted.
fn source(alloc: Global, asserted: &str) -> Result<String, NoMemory> {
    Ok(format!(in alloc;
        "component E:\n    pin 1\n    x: dimensionless\n    kind = \"k\"\n    assert x within {asserted}\n"
    )?)
}

/// What a check gives over these files and a certificate, where the numbered reads fail: its status
/// code and what is printed, or the code 99 where it puts a file.
fn check_over(
    alloc: Global,
    source: &[u8],
    catalogue: &[u8],
    cert: Option<&[u8]>,
    fail: &[u32],
) -> Result<(u8, MemSink), NoMemory> {
    let mut held = files(alloc, source, catalogue)?;
    if let Some(cert) = cert {
        let mut bytes = Vec::new(alloc);
        bytes.extend_from_slice(cert)?;
        held.push((Text::copy(alloc, "out.cert")?, List::from_vec(bytes)))?;
    }
    let mut failing = List::new(alloc);
    for number in fail {
        failing.push(*number)?;
    }
    let mut shelf = MemShelf::new(held, failing);
    let mut tray = SureTray::new(alloc);
    let mut sink = wide_sink(alloc)?;
    let code = code_of(alloc, JOB, &mut shelf, &mut tray, &mut sink)?;
    let put = tray.get("out.net").is_some()
        || tray.get("out.csv").is_some()
        || tray.get("out.cert").is_some();
    Ok((if put { 99 } else { code }, sink))
}

/// Rows, what is asserted, and the verdict.
const BUILDS: &[(&str, &str, &str)] = &[
    ("A,k,1 to 3\nB,k,2\n", "2 to 4", "built"),
    ("A,k,1 to 3\nB,k,2\n", "4 to 5", "refuted"),
    (
        "A,j,3\nB,k,4 to 6\nC,k,8 to 9\nD,k,1 to 8\n",
        "5 to 8",
        "refuted",
    ),
    ("A,j,1\n", "2 to 4", "refuted"),
];

/// Whether the certificate of a build is accepted with this verdict.
fn is_accepted(alloc: Global, rows: &str, asserted: &str, verdict: &str) -> Result<bool, NoMemory> {
    let text = source(alloc, asserted)?;
    let rows = format!(in alloc; "part,kind,x\n{rows}")?;
    let job = "build main.ato:E cat.csv";
    let (_, tray, _) = run_over(alloc, text.as_bytes(), rows.as_bytes(), job)?;
    let cert = tray.get("out.cert");
    let (code, sink) = check_over(alloc, text.as_bytes(), rows.as_bytes(), cert, &[])?;
    let want = format!(in alloc; "accepted {verdict}\n")?;
    Ok(code == 0 && sink.written() == want.as_bytes())
}

#[test]
fn what_a_build_puts_is_accepted(rt: HostRuntime) -> Result<(), Fail> {
    for (rows, asserted, verdict) in BUILDS {
        assert!(rt; is_accepted(rt.alloc(), rows, asserted, verdict)?, "{rows}");
    }
    Ok(())
}

const TWO_KINDS: &[u8] = b"part,kind,x\nA,j,3\nB,k,3\n";

/// Whether a check of this pick, where the first row is of another kind, ends so.
fn ends_with_pick(alloc: Global, pick: u32, code: u8, want: &str) -> Result<bool, NoMemory> {
    let cert = format!(in alloc;
        "ato-certificate 1\nverdict built\nsteps 1\npick {pick}\ncheck 1\nholds\nend\n"
    )?;
    let text = source(alloc, "2 to 4")?;
    let cert = Some(cert.as_bytes());
    let (found, sink) = check_over(alloc, text.as_bytes(), TWO_KINDS, cert, &[])?;
    Ok(found == code && sink.written() == want.as_bytes())
}

#[test]
fn a_row_of_another_kind_is_no_pick(rt: HostRuntime) -> Result<(), Fail> {
    assert!(rt; ends_with_pick(rt.alloc(), 1, 9, "rejected line 4\n")?);
    assert!(rt; ends_with_pick(rt.alloc(), 2, 0, "accepted built\n")?);
    Ok(())
}

/// Texts after `verdict `, and the status with what is printed.
const WITHOUT_SLOT: &[(&str, u8, &str)] = &[
    ("built\nsteps 1\npick\nend\n", 0, "accepted built\n"),
    ("built\nsteps 1\npick\n", 9, "rejected line 5\n"),
    ("built\nsteps 1\npick 1\nend\n", 9, "rejected line 4\n"),
    ("refuted\nsteps 1\nempty 1\n", 9, "rejected line 4\n"),
];

/// Whether a check of these lines, where the component has no part, ends so.
fn ends_without_slot(alloc: Global, lines: &str, code: u8, want: &str) -> Result<bool, NoMemory> {
    let source = b"component E:\n    pin 1\n";
    let cert = format!(in alloc; "ato-certificate 1\nverdict {lines}")?;
    let cert = Some(cert.as_bytes());
    let (found, sink) = check_over(alloc, source, b"part,kind\n", cert, &[])?;
    Ok(found == code && sink.written() == want.as_bytes())
}

#[test]
fn a_certificate_without_a_slot(rt: HostRuntime) -> Result<(), Fail> {
    for (lines, code, want) in WITHOUT_SLOT {
        assert!(rt;
            ends_without_slot(rt.alloc(), lines, *code, want)?,
            "{lines}"
        );
    }
    Ok(())
}

/// What is printed where two rows, from 1 to 3 and of 2, are checked against a target.
fn said_of(alloc: Global, asserted: &str, cert: &[u8]) -> Result<(u8, MemSink), NoMemory> {
    let text = source(alloc, asserted)?;
    let rows = b"part,kind,x\nA,k,1 to 3\nB,k,2\n";
    check_over(alloc, text.as_bytes(), rows, Some(cert), &[])
}

/// Whether a certificate is rejected at this line.
fn is_bad_at(alloc: Global, asserted: &str, cert: &[u8], line: u32) -> Result<bool, NoMemory> {
    let want = format!(in alloc; "rejected line {line}\n")?;
    let (code, sink) = said_of(alloc, asserted, cert)?;
    Ok(code == 9 && sink.written() == want.as_bytes())
}

/// The same of the lines after the word `verdict`.
fn are_bad_at(alloc: Global, asserted: &str, lines: &str, line: u32) -> Result<bool, NoMemory> {
    let cert = format!(in alloc; "ato-certificate 1\nverdict {lines}")?;
    is_bad_at(alloc, asserted, cert.as_bytes(), line)
}

/// What is asserted, whole texts, and their first bad lines.
const TEXTS: &[(&str, &str, u32)] = &[
    ("2 to 4", "", 1),
    ("2 to 4", "\n", 1),
    ("2 to 4", "ato-certificate 2\nverdict built\n", 1),
    ("2 to 4", "ato-certificate 1\r\nverdict built\r\n", 1),
    ("2 to 4", "ato-certificate 1\nverdict good\n", 2),
    ("2 to 4", "ato-certificate 1\nverdict built\npick 2\n", 3),
    ("2 to 4", "ato-certificate 1\nverdict built\nsteps 0\n", 3),
    ("2 to 4", "ato-certificate 1\nverdict built\nsteps 09\n", 3),
    (
        "2 to 4",
        "ato-certificate 1\nverdict built\nsteps 200001\n",
        3,
    ),
];

/// What is asserted, texts after `verdict `, and their first bad lines.
const PROOFS: &[(&str, &str, u32)] = &[
    (
        "2 to 4",
        "built\nsteps 9\npick 2\ncheck 1\nholds\nend\n\n",
        8,
    ),
    ("2 to 4", "built\nsteps 9\npick 2\ncheck 1\nholds\nend", 7),
    ("2 to 4", "built\nsteps 9\npick 1\ncheck 1\nholds\nend\n", 6),
    ("2 to 4", "built\nsteps 9\npick 3\ncheck 1\nholds\nend\n", 4),
    (
        "2 to 4",
        "built\nsteps 9\npick 02\ncheck 1\nholds\nend\n",
        4,
    ),
    ("2 to 4", "built\nsteps 9\npick 2\nend\n", 2),
    ("2 to 4", "refuted\nsteps 9\nfails 1 0/1\n", 4),
    ("4 to 5", "refuted\nsteps 9\nempty 1\n", 4),
    (
        "4 to 5",
        "refuted\nsteps 9\nrow 1 2\nfails 1 0/1\nempty 1\n",
        4,
    ),
    (
        "4 to 5",
        "refuted\nsteps 9\nrow 1 1\nfails 1 0/2\nfails 1 0/1\n",
        5,
    ),
    (
        "4 to 5",
        "refuted\nsteps 9\nrow 1 1\nfails 1 0/1\nempty 1\n",
        6,
    ),
    (
        "4 to 5",
        "refuted\nsteps 9\nrow 1 1\nrow 1 1\nempty 1\nempty 1\nempty 1\n",
        5,
    ),
    (
        "4 to 5",
        "refuted\nsteps 2\nrow 1 1\nfails 1 0/1\nfails 1 0/1\n",
        3,
    ),
];

#[test]
fn spoiled_certificates_name_their_first_bad_line(rt: HostRuntime) -> Result<(), Fail> {
    for (asserted, cert, line) in TEXTS {
        assert!(rt;
            is_bad_at(rt.alloc(), asserted, cert.as_bytes(), *line)?,
            "{cert}"
        );
    }
    for (asserted, lines, line) in PROOFS {
        assert!(rt; are_bad_at(rt.alloc(), asserted, lines, *line)?, "{lines}");
    }
    Ok(())
}

const REFUTED: &str =
    "ato-certificate 1\nverdict refuted\nsteps 20000\nrow 1 1\nfails 1 0/1\nfails 1 1/1\n";

const BUILT: &str = "ato-certificate 1\nverdict built\nsteps 20000\npick 2\ncheck 1\nholds\nend\n";

/// Whether so many bytes of a certificate are rejected at the line where they end.
fn is_cut_rejected(
    alloc: Global,
    asserted: &str,
    cert: &str,
    cut: usize,
) -> Result<bool, NoMemory> {
    let front = match cert.as_bytes().get(..cut) {
        Some(front) => front,
        None => cert.as_bytes(),
    };
    let ends = front.iter().filter(|byte| **byte == b'\n').count();
    is_bad_at(alloc, asserted, front, ends.min(1000) as u32 + 1)
}

/// Whether a certificate is accepted with this verdict.
fn is_whole(alloc: Global, asserted: &str, cert: &str, verdict: &str) -> Result<bool, NoMemory> {
    let (code, sink) = said_of(alloc, asserted, cert.as_bytes())?;
    let want = format!(in alloc; "accepted {verdict}\n")?;
    Ok(code == 0 && sink.written() == want.as_bytes())
}

/// What is asserted, a certificate, and its verdict.
const WHOLE: &[(&str, &str, &str)] = &[("4 to 5", REFUTED, "refuted"), ("2 to 4", BUILT, "built")];

#[test]
fn each_cut_of_a_certificate_is_rejected(rt: HostRuntime) -> Result<(), Fail> {
    for (asserted, cert, verdict) in WHOLE {
        assert!(rt; is_whole(rt.alloc(), asserted, cert, verdict)?, "{verdict}");
        for cut in 0..cert.len() {
            assert!(rt;
                is_cut_rejected(rt.alloc(), asserted, cert, cut)?,
                "{verdict} {cut}"
            );
        }
    }
    Ok(())
}

const GOOD: &str =
    "component E:\n    pin 1\n    x: dimensionless\n    kind = \"k\"\n    assert x within 2 to 4\n";

const ROWS: &str = "part,kind,x\nA,k,2\n";

/// Sources and catalogues without a certificate, the number of the read that fails, and the status
/// with what is printed.
const FIRST_FAULTS: &[(&str, &str, u32, u8, &str)] = &[
    (GOOD, ROWS, 9, 1, "fault F8 FileMissing word 3\n"),
    (GOOD, ROWS, 3, 5, "read fault out.cert\n"),
    (GOOD, ROWS, 2, 5, "read fault cat.csv\n"),
    (GOOD, ROWS, 1, 5, "read fault main.ato\n"),
    (GOOD, "part\n", 3, 1, "fault F20 NoHeader cat.csv:0:0\n"),
    (ROWS, "part\n", 2, 1, "fault F6 Syntax main.ato:1:1\n"),
];

/// Whether a check without a certificate, where the read of this number fails, ends so.
fn ends_at(
    alloc: Global,
    files: (&str, &str),
    fail: u32,
    code: u8,
    want: &str,
) -> Result<bool, NoMemory> {
    let fail = [fail];
    let (found, sink) = check_over(alloc, files.0.as_bytes(), files.1.as_bytes(), None, &fail)?;
    Ok(found == code && sink.written() == want.as_bytes())
}

#[test]
fn the_first_file_with_a_fault_is_named(rt: HostRuntime) -> Result<(), Fail> {
    for (source, rows, fail, code, want) in FIRST_FAULTS {
        assert!(rt;
            ends_at(rt.alloc(), (source, rows), *fail, *code, want)?,
            "{want}"
        );
    }
    Ok(())
}
