use crate::search;
use ato_base::{List, NoMemory};
use ato_cert::{Cert, Problem, Row, Slot, cert_text, nodes};
use ato_frac::{Exact, Frac};
use std::alloc::Global;
use std::test::Fail;

/// A whole number as a fraction, or 0 where it does not fit.
fn whole(n: i128) -> Frac {
    match Frac::new(n, 1) {
        Some(f) => f,
        None => Frac::zero(),
    }
}

/// A candidate: its number and the ends of its range.
type Candidate = (u32, i128, i128);

/// The problem of candidates, each with its number and the ends of its range, and a target.
fn problem_of(
    alloc: Global,
    candidates: &[Candidate],
    target: (i128, i128),
) -> Result<Problem, NoMemory> {
    let mut rows = List::new(alloc);
    for (number, low, high) in candidates {
        rows.push(Row {
            number: *number,
            low: whole(*low),
            high: whole(*high),
        })?;
    }
    Ok(Problem {
        slot: Some(Slot {
            rows,
            low: whole(target.0),
            high: whole(target.1),
        }),
    })
}

/// What the search gives, or none where its conditions are not met.
fn found(alloc: Global, problem: &Problem) -> Result<Option<Cert>, NoMemory> {
    if !problem.is_well_made() {
        return Ok(None);
    }
    if let Some(slot) = &problem.slot {
        if slot.rows.len() > 1000 {
            return Ok(None);
        }
    }
    Ok(Some(search(alloc, problem, 20000)?))
}

/// The text of what the search gives, with the number of its nodes, or none where its conditions are
/// not met.
fn found_text(alloc: Global, problem: &Problem) -> Result<Option<(List<u8>, u32)>, NoMemory> {
    match found(alloc, problem)? {
        Some(cert) => Ok(Some((cert_text(alloc, &cert)?, nodes(&cert)))),
        None => Ok(None),
    }
}

/// The text of a certificate after its second word, for 20,000 steps.
fn text_with(alloc: Global, word: &str, proof: &str) -> Result<String, NoMemory> {
    Ok(format!(in alloc; "ato-certificate 1\nverdict {word}\nsteps 20000\n{proof}")?)
}

const MOST: i128 = 999_999_999_999_999_999;

const TWO: &[Candidate] = &[(1, 1, 3), (2, 2, 2)];

const THREE: &[Candidate] = &[(3, 0, 9), (7, 2, 3), (8, 2, 3)];

const ODD: &[Candidate] = &[(1, 0, 1), (2, 9, 9), (4, -7, 7)];

const LARGE: &[Candidate] = &[(1, 0, MOST), (4_294_967_295, MOST, MOST)];

/// Candidates, a target, the verdict, and the lines after the steps.
const CERTIFICATES: &[(&[Candidate], (i128, i128), &str, &str)] = &[
    (TWO, (2, 4), "built", "pick 2\ncheck 1\nholds\nend\n"),
    (
        TWO,
        (4, 5),
        "refuted",
        "row 1 1\nfails 1 0/1\nfails 1 0/1\n",
    ),
    (&[], (2, 4), "refuted", "empty 1\n"),
    (THREE, (0, 9), "built", "pick 3\ncheck 1\nholds\nend\n"),
    (THREE, (2, 3), "built", "pick 7\ncheck 1\nholds\nend\n"),
    (
        ODD,
        (2, 8),
        "refuted",
        "row 1 2\nrow 1 1\nfails 1 0/1\nfails 1 1/1\nfails 1 0/1\n",
    ),
    (ODD, (-7, 7), "built", "pick 1\ncheck 1\nholds\nend\n"),
    (
        ODD,
        (-7, -7),
        "refuted",
        "row 1 2\nrow 1 1\nfails 1 1/1\nfails 1 1/1\nfails 1 1/1\n",
    ),
    (
        LARGE,
        (MOST, MOST),
        "built",
        "pick 4294967295\ncheck 1\nholds\nend\n",
    ),
    (
        LARGE,
        (0, MOST - 1),
        "refuted",
        "row 1 1\nfails 1 1/1\nfails 1 1/1\n",
    ),
];

/// Whether this certificate is found for these candidates.
fn is_found(
    alloc: Global,
    candidates: &[Candidate],
    target: (i128, i128),
    word: &str,
    proof: &str,
) -> Result<bool, NoMemory> {
    let problem = problem_of(alloc, candidates, target)?;
    let want = text_with(alloc, word, proof)?;
    match found_text(alloc, &problem)? {
        Some((text, _)) => Ok(text.as_slice() == want.as_bytes()),
        None => Ok(false),
    }
}

#[test]
fn certificates_to_the_byte(rt: HostRuntime) -> Result<(), Fail> {
    for (candidates, target, word, proof) in CERTIFICATES {
        assert!(rt;
            is_found(rt.alloc(), candidates, *target, word, proof)?,
            "{proof}"
        );
    }
    Ok(())
}

#[test]
fn without_a_slot_the_empty_pick_is_built(rt: HostRuntime) -> Result<(), Fail> {
    let alloc = rt.alloc();
    let want = text_with(alloc, "built", "pick\nend\n")?;
    match found_text(alloc, &Problem { slot: None })? {
        Some((text, count)) => assert!(rt; text.as_slice() == want.as_bytes() && count == 0),
        None => assert!(rt; false),
    }
    Ok(())
}

/// The nodes of the certificate for rows from 1 on, the values of each its number, and a target.
fn count_of_many(alloc: Global, rows: u32, target: (i128, i128)) -> Result<Option<u32>, NoMemory> {
    let mut candidates = List::new(alloc);
    for number in 0..rows {
        let value = i128::from(number);
        candidates.push((number, value, value))?;
    }
    let problem = problem_of(alloc, candidates.as_slice(), target)?;
    match found(alloc, &problem)? {
        Some(cert) => Ok(Some(nodes(&cert))),
        None => Ok(None),
    }
}

/// How many rows, a target, and the nodes.
const COUNTS: &[(u32, (i128, i128), Option<u32>)] = &[
    (1, (0, 0), Some(1)),
    (1000, (999, 999), Some(1)),
    (1000, (2000, 3000), Some(1999)),
    (1000, (3, 2), None),
    (1001, (0, 0), None),
];

#[test]
fn nodes_of_many_rows(rt: HostRuntime) -> Result<(), Fail> {
    for (rows, target, count) in COUNTS {
        assert!(rt;
            count_of_many(rt.alloc(), *rows, *target)? == *count,
            "{rows}"
        );
    }
    Ok(())
}
