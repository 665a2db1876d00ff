//! The check of a certificate.
ghost use Rattle.std.specs.Prelude.{◌<◌, ◌^◌, length, IfOk, MatchOption};
ghost use Rattle.ato_cert.specs.Problems.{IsWellMade};
ghost use Rattle.ato_cert.specs.Readable.{IsReadable};
ghost use Rattle.ato_cert.specs.Texts.{cert_text};
ghost use Rattle.ato_cert.specs.Valid.{IsValid, IsProofOf};
ghost use Rattle.ato_check.specs.FirstBad.{IsBadProof, IsFirstBad};
ghost use Rattle.ato_check.specs.Checks.{IsRight};

use crate::picks::bad_line_of_pick;
use crate::trees::check_tree;
use ato_base::NoMemory;
use ato_cert::{Cert, Problem, Proof, nodes};
use std::alloc::Global;

/// What the check of a certificate found.
#[derive(Clone, Copy, Debug, PartialEq, Eq)]
pub enum Checked {
    /// The certificate is valid.
    Accepted,
    /// It is not. The number is that of its first bad line, from 1.
    Rejected(u32),
}

/// The first bad line of the proof of a certificate or of its verdict, or none where they are right.
fn bad_line_of_proof(problem: &Problem, cert: &Cert) -> Option<u32>
    requires made { IsWellMade problem.now }
    requires readable { IsReadable problem.now cert.now }
    requires size { length (cert_text cert.now) < 2 ^ 32 }
    ensures { MatchOption result
        (IsProofOf problem.now.slot cert.now.proof)
        (IsBadProof problem.now.slot cert.now.proof) }
{
    match (&problem.slot, &cert.proof) {
        (None, _) => None,
        (Some(slot), Proof::Built { pick, boxes }) => {
            bad_line_of_pick(slot, pick.as_slice(), boxes.as_slice())
        }
        (Some(slot), Proof::Tree { tree, .. }) => {
            match check_tree(slot, slot.rows.as_slice(), tree) {
                Ok(_) => None,
                Err(at) => Some(4 + at),
            }
        }
    }
}

/// The first bad line of a certificate, or none where it is valid.
fn bad_line(problem: &Problem, cert: &Cert) -> Option<u32>
    requires made { IsWellMade problem.now }
    requires readable { IsReadable problem.now cert.now }
    requires size { length (cert_text cert.now) < 2 ^ 32 }
    ensures { MatchOption result
        (IsValid problem.now cert.now)
        (IsFirstBad problem.now cert.now) }
{
    match bad_line_of_proof(problem, cert) {
        Some(line) => Some(line),
        None => {
            if nodes(cert) <= cert.steps {
                None
            } else {
                Some(3)
            }
        }
    }
}

/// Checks a certificate that has the form of a text over a problem.
///
/// It is accepted exactly where it is valid, and else rejected with its first bad line: the first line
/// of the proof that is not justified, else the second line where the verdict wants a check that is not
/// listed, and else the third, where there are more nodes than steps. It ends in time linear in the lines
/// and the rows, and only want of memory is an error.
pub fn check(_alloc: Global, problem: &Problem, cert: &Cert) -> Result<Checked, NoMemory>
    requires made { IsWellMade problem.now }
    requires readable { IsReadable problem.now cert.now }
    requires size { length (cert_text cert.now) < 2 ^ 32 }
    ensures right { IfOk result (IsRight problem.now cert.now) }
{
    match bad_line(problem, cert) {
        None => Ok(Checked::Accepted),
        Some(line) => Ok(Checked::Rejected(line)),
    }
}
