//! Certificates as they are read.
ghost use Rattle.std.specs.Prelude.{◌≡◌, ◌<◌, ◌≤◌, ◌^◌, length, IfOk, IfErr};
ghost use Rattle.ato_cert.specs.declared.cert.Cert as the;
ghost use Rattle.ato_cert.specs.Texts.{cert_text};
ghost use Rattle.ato_cert.specs.Readable.{IsReadable, slot_count};
ghost use Rattle.ato_cert.specs.Refusals.{RefusesBytes};

use crate::line::ReadFault;
use crate::parts::read_whole;
use crate::refusal::CertRefusal;
use crate::{Cert, Problem};
use std::alloc::Global;

/// The line in which so many bytes are left, from 1.
fn line_of(bytes: &[u8], left: usize) -> u32 {
    let at = bytes.len().saturating_sub(left);
    let ends = bytes[..at].iter().filter(|byte| **byte == b'\n').count();
    (ends.min(u32::MAX as usize) as u32).saturating_add(1)
}

/// How many slots a problem has.
fn slot_count(problem: &Problem) -> u32
    ensures count { result ≡ slot_count problem.now }
    ensures few { result ≤ 1 }
{
    match problem.slot {
        Some(_) => 1,
        None => 0,
    }
}

/// Reads the text of a certificate.
///
/// Ok is the one certificate of the form (numbers below 2^32, steps from 1 to 200,000, one number in the
/// pick for each slot, checks and slots that are there, at most 10,000 nodes above a line of the tree)
/// whose text the bytes are. `Bad` comes exactly where there is none, and names the first line after
/// which no certificate's text can follow: one past the last where the text ends too early at a
/// line's end. The time is linear in the bytes. Whether the certificate is valid is not tested here.
pub fn read_cert(alloc: Global, bytes: &[u8], problem: &Problem) -> Result<Cert, CertRefusal>
    requires { length bytes.now < 2 ^ 32 }
    ensures readable { IfOk result (IsReadable problem.now) }
    ensures text { IfOk result (λ cert. cert_text cert ≡ bytes.now) }
    ensures only { IfOk result (λ cert. (other : the.Cert) → IsReadable problem.now other → cert_text other ≡ bytes.now → other ≡ cert) }
    ensures bad { IfErr result (RefusesBytes problem.now bytes.now) }
{
    match read_whole(alloc, slot_count(problem), bytes) {
        Ok(cert) => Ok(cert),
        Err(ReadFault::NoMemory) => Err(CertRefusal::NoMemory),
        Err(ReadFault::At(left)) => Err(CertRefusal::Bad(line_of(bytes, left))),
    }
}
