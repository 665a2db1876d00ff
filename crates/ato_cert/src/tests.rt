use crate::{
    CertRefusal, Problem, Row, Slot, cert_text, halves, is_at_most, nodes, read_cert,
    valid_is_sound, valid_is_writable,
};
use ato_base::{List, NoMemory};
use ato_frac::{Exact, Frac};
use std::alloc::Global;
use std::test::Fail;

/// A whole number as a fraction, or 0 where it does not fit.
fn whole(n: i128) -> Frac {
    match Frac::new(n, 1) {
        Some(f) => f,
        None => Frac::zero(),
    }
}

/// The problem of candidates, each with its number and the ends of its range, and a target.
fn problem_of(
    alloc: Global,
    candidates: &[(u32, i128, i128)],
    target: (i128, i128),
) -> Result<Problem, NoMemory> {
    let mut rows = List::new(alloc);
    for (number, low, high) in candidates {
        rows.push(Row {
            number: *number,
            low: whole(*low),
            high: whole(*high),
        })?;
    }
    Ok(Problem {
        slot: Some(Slot {
            rows,
            low: whole(target.0),
            high: whole(target.1),
        }),
    })
}

/// The text of a certificate after its second word, for 20,000 steps.
fn text_with(alloc: Global, word: &str, proof: &str) -> Result<String, NoMemory> {
    Ok(format!(in alloc; "ato-certificate 1\nverdict {word}\nsteps 20000\n{proof}")?)
}

/// Candidates, a target, and whether the problem of both is well made.
const PROBLEMS: &[(&[(u32, i128, i128)], (i128, i128), bool)] = &[
    (&[(1, 0, 0), (2, 5, 5)], (0, 0), true),
    (&[(1, 0, 0), (1, 5, 5)], (0, 0), false),
    (&[(2, 0, 0), (1, 5, 5)], (0, 0), false),
    (&[(1, 0, 0), (2, 5, 4)], (0, 0), false),
    (&[(1, 0, 0), (2, 5, 5)], (1, 0), false),
];

#[test]
fn problems_that_are_not_well_made(rt: HostRuntime) -> Result<(), Fail> {
    for (candidates, target, is) in PROBLEMS {
        let problem = problem_of(rt.alloc(), candidates, *target)?;
        assert!(rt; problem.is_well_made() == *is);
    }
    Ok(())
}

/// The bad line of a text, or 0 where it is read and is written as it was.
fn bad_line(alloc: Global, text: &[u8], problem: &Problem) -> Result<u32, NoMemory> {
    if text.len() > 1_000_000 {
        return Err(NoMemory);
    }
    match read_cert(alloc, text, problem) {
        Ok(cert) => {
            let again = cert_text(alloc, &cert)?;
            if again.as_slice() == text {
                Ok(0)
            } else {
                Ok(9999)
            }
        }
        Err(CertRefusal::Bad(line)) => Ok(line),
        Err(CertRefusal::NoMemory) => Err(NoMemory),
    }
}

/// Texts and their bad lines.
const TEXTS: &[(&str, u32)] = &[
    ("", 1),
    ("ato-certificate 2\n", 1),
    ("ato-certificate 1\n", 2),
    ("ato-certificate 1\nverdict too-wide\n", 2),
    ("ato-certificate 1\nverdict built\npick 2\n", 3),
    (
        "ato-certificate 1\nverdict built\nsteps 0\npick 2\nend\n",
        3,
    ),
    (
        "ato-certificate 1\nverdict built\nsteps 200001\npick 2\nend\n",
        3,
    ),
    (
        "ato-certificate 1\nverdict built\nsteps 020\npick 2\nend\n",
        3,
    ),
    (
        "ato-certificate 1\nverdict built\nsteps 200000\npick 2\nend\n",
        0,
    ),
];

/// Verdicts, the lines after the steps, and the bad line.
const PROOFS: &[(&str, &str, u32)] = &[
    ("built", "pick 2\ncheck 1\nholds\nend\n", 0),
    ("built", "pick 4294967295\nend\n", 0),
    ("built", "pick 4294967296\nend\n", 4),
    ("built", "pick 02\nend\n", 4),
    ("built", "pick 1 2\nend\n", 4),
    ("built", "pick\nend\n", 4),
    ("built", "pick 2\ncheck 2\nholds\nend\n", 5),
    ("built", "pick 2\ncheck 1\nwide\nend\n", 6),
    ("built", "pick 2\ncheck 1\nholds\n", 7),
    ("built", "pick 2\nend\n\n", 6),
    ("refuted", "empty 1\n", 0),
    ("refuted", "empty 2\n", 4),
    ("refuted", "row 1 5\nempty 1\n", 6),
    ("refuted", "row 1 5\nempty 1\nfails 1\n", 0),
    ("refuted", "row 1 5\nempty 1\nempty 1\nempty 1\n", 7),
    ("refuted", "row  1 5\nempty 1\nempty 1\n", 4),
    ("refuted", "fails 1 0/1 -3/4 12/5\n", 0),
    (
        "refuted",
        "fails 1 170141183460469231731687303715884105727/2\n",
        0,
    ),
    (
        "refuted",
        "fails 1 170141183460469231731687303715884105728/1\n",
        4,
    ),
    ("refuted", "fails 1 2/4\n", 4),
    ("refuted", "fails 1 -0/1\n", 4),
    ("refuted", "fails 1 1/0\n", 4),
    ("refuted", "fails 1 1/1 0", 4),
    ("refuted", "fails 2 1/1\n", 4),
    ("refuted", "", 4),
];

/// The same where the problem has no slot.
const PROOFS_WITHOUT_SLOT: &[(&str, &str, u32)] = &[
    ("built", "pick\nend\n", 0),
    ("built", "pick 1\nend\n", 4),
    ("built", "pick\ncheck 1\nholds\nend\n", 5),
    ("refuted", "empty 1\n", 4),
];

/// Whether a certificate with these lines has this bad line.
fn is_bad_at(
    alloc: Global,
    problem: &Problem,
    word: &str,
    proof: &str,
    line: u32,
) -> Result<bool, NoMemory> {
    let text = text_with(alloc, word, proof)?;
    Ok(bad_line(alloc, text.as_bytes(), problem)? == line)
}

#[test]
fn first_bad_lines_of_texts(rt: HostRuntime) -> Result<(), Fail> {
    let alloc = rt.alloc();
    let problem = problem_of(alloc, &[(1, 1, 3), (2, 2, 2)], (2, 4))?;
    for (text, line) in TEXTS {
        assert!(rt;
            bad_line(alloc, text.as_bytes(), &problem)? == *line,
            "{text}"
        );
    }
    for (word, proof, line) in PROOFS {
        assert!(rt; is_bad_at(alloc, &problem, word, proof, *line)?, "{proof}");
    }
    let unslotted = Problem { slot: None };
    for (word, proof, line) in PROOFS_WITHOUT_SLOT {
        assert!(rt;
            is_bad_at(alloc, &unslotted, word, proof, *line)?,
            "{proof}"
        );
    }
    Ok(())
}

/// The bad line of a tree of so many lines `row` below each other.
fn bad_line_of_rows(alloc: Global, rows: usize, problem: &Problem) -> Result<u32, NoMemory> {
    let mut text = text_with(alloc, "refuted", "")?;
    for _ in 0..rows {
        text.push_str("row 1 1\n")?;
    }
    for _ in 0..rows {
        text.push_str("empty 1\n")?;
    }
    text.push_str("empty 1\n")?;
    bad_line(alloc, text.as_bytes(), problem)
}

#[test]
fn trees_of_many_rows(rt: HostRuntime) -> Result<(), Fail> {
    let alloc = rt.alloc();
    let problem = problem_of(alloc, &[(1, 1, 3)], (2, 4))?;
    assert!(rt; bad_line_of_rows(alloc, 10_000, &problem)? == 0);
    assert!(rt; bad_line_of_rows(alloc, 10_001, &problem)? == 10_004);
    Ok(())
}

/// The nodes of the certificate that a text is, or 9999 where it is none.
fn nodes_of_text(alloc: Global, text: &[u8], problem: &Problem) -> Result<u32, NoMemory> {
    if text.len() > 1_000_000 {
        return Err(NoMemory);
    }
    match read_cert(alloc, text, problem) {
        Ok(cert) => Ok(nodes(&cert)),
        Err(CertRefusal::Bad(_)) => Ok(9999),
        Err(CertRefusal::NoMemory) => Err(NoMemory),
    }
}

/// Verdicts, the lines after the steps, and how many nodes they are.
const NODES: &[(&str, &str, u32)] = &[
    ("built", "pick 2\ncheck 1\nholds\nend\n", 1),
    ("built", "pick 2\nend\n", 0),
    ("refuted", "empty 1\n", 1),
    ("refuted", "row 1 1\nfails 1 0/1\nfails 1 0/1\n", 3),
];

/// Whether a certificate with these lines has so many nodes.
fn has_nodes(
    alloc: Global,
    problem: &Problem,
    word: &str,
    proof: &str,
    count: u32,
) -> Result<bool, NoMemory> {
    let text = text_with(alloc, word, proof)?;
    Ok(nodes_of_text(alloc, text.as_bytes(), problem)? == count)
}

#[test]
fn nodes_are_lines_of_trees_and_of_boxes(rt: HostRuntime) -> Result<(), Fail> {
    let alloc = rt.alloc();
    valid_is_sound();
    valid_is_writable();
    let problem = problem_of(alloc, &[(1, 1, 3), (2, 2, 2)], (2, 4))?;
    for (word, proof, count) in NODES {
        assert!(rt; has_nodes(alloc, &problem, word, proof, *count)?, "{proof}");
    }
    Ok(())
}

/// Whether these rows of a slot are in its target, one by one.
fn are_in_target(slot: &Slot, inside: &[bool]) -> bool {
    let rows = slot.rows.as_slice();
    rows.len() == inside.len()
        && rows
            .iter()
            .zip(inside)
            .all(|(row, is)| slot.has_in_target(row) == *is)
}

#[test]
fn rows_against_targets_and_their_middle(rt: HostRuntime) -> Result<(), Fail> {
    let problem = problem_of(rt.alloc(), &[(1, 1, 3), (2, 2, 2), (5, 2, 4)], (2, 4))?;
    if let Some(slot) = &problem.slot {
        assert!(rt; are_in_target(slot, &[false, true, true]));
        if problem.is_well_made() && slot.rows.len() == 3 {
            let (low, number, high) = halves(slot.rows.as_slice());
            assert!(rt; low.len() == 2 && number == 2 && high.len() == 1);
        }
    }
    assert!(rt; is_at_most(&whole(2), &whole(2)) && !is_at_most(&whole(3), &whole(2)));
    Ok(())
}
