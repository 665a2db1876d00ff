use crate::{Checked, check};
use ato_base::{List, NoMemory};
use ato_cert::{CertRefusal, Problem, Row, Slot, read_cert};
use ato_frac::{Exact, Frac};
use std::alloc::Global;
use std::test::Fail;

/// A whole number as a fraction, or 0 where it does not fit.
fn whole(n: i128) -> Frac {
    match Frac::new(n, 1) {
        Some(f) => f,
        None => Frac::zero(),
    }
}

/// A candidate: its number and the ends of its range.
type Candidate = (u32, i128, i128);

/// The problem of candidates, each with its number and the ends of its range, and a target.
fn problem_of(
    alloc: Global,
    candidates: &[Candidate],
    target: (i128, i128),
) -> Result<Problem, NoMemory> {
    let mut rows = List::new(alloc);
    for (number, low, high) in candidates {
        rows.push(Row {
            number: *number,
            low: whole(*low),
            high: whole(*high),
        })?;
    }
    Ok(Problem {
        slot: Some(Slot {
            rows,
            low: whole(target.0),
            high: whole(target.1),
        }),
    })
}

/// The first bad line of a text, 0 where it is accepted, and 9999 where it is not read.
fn bad_line(alloc: Global, problem: &Problem, text: &[u8]) -> Result<u32, NoMemory> {
    if text.len() > 1_000_000 || !problem.is_well_made() {
        return Err(NoMemory);
    }
    match read_cert(alloc, text, problem) {
        Ok(cert) => match check(alloc, problem, &cert)? {
            Checked::Accepted => Ok(0),
            Checked::Rejected(line) => Ok(line),
        },
        Err(CertRefusal::Bad(_)) => Ok(9999),
        Err(CertRefusal::NoMemory) => Err(NoMemory),
    }
}

const TWO_ROWS: &[Candidate] = &[(1, 1, 3), (2, 2, 2)];

const FOUR_ROWS: &[Candidate] = &[(1, 0, 0), (3, 9, 9), (5, 0, 0), (7, 9, 9)];

/// Whether the first bad line of a certificate with this verdict, these steps and these lines is this one.
fn is_bad_at(
    alloc: Global,
    problem: &Problem,
    head: (&str, u32),
    proof: &str,
    line: u32,
) -> Result<bool, NoMemory> {
    let (word, steps) = head;
    let text = format!(in alloc; "ato-certificate 1\nverdict {word}\nsteps {steps}\n{proof}")?;
    Ok(bad_line(alloc, problem, text.as_bytes())? == line)
}

/// Picks and their first bad lines.
const PICKS: &[(&str, u32)] = &[
    ("pick 2\ncheck 1\nholds\nend\n", 0),
    ("pick 3\ncheck 1\nholds\nend\n", 4),
    ("pick 3\nend\n", 4),
    ("pick 1\ncheck 1\nholds\nend\n", 6),
    ("pick 2\nend\n", 2),
    ("pick 1\nend\n", 2),
];

/// Trees for a problem with a good pick.
const NO_REFUTATIONS: &[(&str, u32)] = &[
    ("row 1 1\nfails 1 0/1\nfails 1 0/1\n", 6),
    ("fails 1 0/1\n", 4),
];

#[test]
fn picks_with_their_check(rt: HostRuntime) -> Result<(), Fail> {
    let alloc = rt.alloc();
    let problem = problem_of(alloc, TWO_ROWS, (2, 4))?;
    for (proof, line) in PICKS {
        let head = ("built", 20000);
        assert!(rt; is_bad_at(alloc, &problem, head, proof, *line)?, "{proof}");
    }
    for (proof, line) in NO_REFUTATIONS {
        let head = ("refuted", 20000);
        assert!(rt; is_bad_at(alloc, &problem, head, proof, *line)?, "{proof}");
    }
    Ok(())
}

/// Steps, trees and their first bad lines.
const TREES: &[(u32, &str, u32)] = &[
    (3, "row 1 1\nfails 1 0/1\nfails 1 0/1\n", 0),
    (2, "row 1 1\nfails 1 0/1\nfails 1 0/1\n", 3),
    (2, "row 1 1\nfails 1 0/1\nfails 1 2/1\n", 6),
    (3, "row 1 2\nfails 1 0/1\nfails 1 0/1\n", 4),
    (3, "row 1 0\nfails 1 0/1\nfails 1 0/1\n", 4),
    (
        3,
        "row 1 1\nfails 1 1/170141183460469231731687303715884105727\nfails 1 0/1\n",
        5,
    ),
    (3, "row 1 1\nempty 1\nfails 1 0/1\n", 5),
    (3, "row 1 1\nfails 1 0/1\nempty 1\n", 6),
    (3, "row 1 1\nfails 1 0/1\n", 9999),
    (9, "row 1 1\nrow 1 1\nempty 1\nempty 1\nfails 1 0/1\n", 5),
    (1, "fails 1 0/1\n", 0),
    (1, "fails 1 1/1\n", 0),
    (1, "fails 1 1/2\n", 0),
    (1, "fails 1 3/2\n", 4),
    (1, "fails 1 -1/2\n", 4),
    (1, "fails 1 0/1 0/1\n", 4),
    (1, "fails 1\n", 4),
    (1, "empty 1\n", 4),
];

#[test]
fn trees_over_two_rows(rt: HostRuntime) -> Result<(), Fail> {
    let alloc = rt.alloc();
    let problem = problem_of(alloc, TWO_ROWS, (4, 5))?;
    for (steps, proof, line) in TREES {
        let head = ("refuted", *steps);
        assert!(rt; is_bad_at(alloc, &problem, head, proof, *line)?, "{proof}");
    }
    Ok(())
}

/// Trees of one row from 0 to 10, and their first bad lines.
const POINTS: &[(&str, u32)] = &[
    ("fails 1 1/2\n", 0),
    ("fails 1 3/5\n", 4),
    ("fails 1 2/3\n", 4),
    ("fails 1 1/1\n", 4),
];

#[test]
fn points_between_the_ends(rt: HostRuntime) -> Result<(), Fail> {
    let alloc = rt.alloc();
    let problem = problem_of(alloc, &[(7, 0, 10)], (6, 20))?;
    for (proof, line) in POINTS {
        let head = ("refuted", 20000);
        assert!(rt; is_bad_at(alloc, &problem, head, proof, *line)?, "{proof}");
    }
    Ok(())
}

/// The trees of the two upper rows, and the first bad lines of the trees of all four.
const UPPER_ROWS: &[(&str, u32)] = &[
    ("row 1 5\nfails 1 0/1\nfails 1 0/1\n", 0),
    ("row 1 5\nfails 1 0/1\nempty 1\n", 10),
    ("row 1 5\nempty 1\nempty 1\n", 9),
    ("row 1 7\nfails 1 0/1\nfails 1 0/1\n", 8),
    ("fails 1 0/1\n", 8),
];

/// Whether the tree with this for the two upper rows has this bad line.
fn upper_is_bad_at(
    alloc: Global,
    problem: &Problem,
    high: &str,
    line: u32,
) -> Result<bool, NoMemory> {
    let proof = format!(in alloc; "row 1 3\nrow 1 1\nfails 1 0/1\nfails 1 0/1\n{high}")?;
    is_bad_at(alloc, problem, ("refuted", 20000), &proof, line)
}

#[test]
fn trees_over_four_rows(rt: HostRuntime) -> Result<(), Fail> {
    let alloc = rt.alloc();
    let problem = problem_of(alloc, FOUR_ROWS, (4, 5))?;
    for (high, line) in UPPER_ROWS {
        assert!(rt; upper_is_bad_at(alloc, &problem, high, *line)?, "{high}");
    }
    Ok(())
}

/// Whether a tree that divides four rows here is bad at once.
fn divides_badly(alloc: Global, problem: &Problem, number: u32) -> Result<bool, NoMemory> {
    let proof = format!(in alloc; "row 1 {number}\nfails 1 0/1\nfails 1 0/1\n")?;
    is_bad_at(alloc, problem, ("refuted", 20000), &proof, 4)
}

#[test]
fn four_rows_divided_off_the_middle(rt: HostRuntime) -> Result<(), Fail> {
    let alloc = rt.alloc();
    let problem = problem_of(alloc, FOUR_ROWS, (4, 5))?;
    for number in [1, 2, 4, 5].iter() {
        assert!(rt; divides_badly(alloc, &problem, *number)?, "{number}");
    }
    Ok(())
}

#[test]
fn no_rows_and_no_slot(rt: HostRuntime) -> Result<(), Fail> {
    let alloc = rt.alloc();
    let problem = problem_of(alloc, &[], (4, 5))?;
    let head = ("refuted", 20000);
    assert!(rt; is_bad_at(alloc, &problem, head, "empty 1\n", 0)?);
    assert!(rt; is_bad_at(alloc, &problem, head, "fails 1 0/1\n", 4)?);
    let unslotted = Problem { slot: None };
    assert!(rt; is_bad_at(alloc, &unslotted, ("built", 1), "pick\nend\n", 0)?);
    Ok(())
}
