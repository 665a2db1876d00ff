//! The check of certificates.
//!
//! A problem of `ato_cert` comes in with a certificate that was read, and what goes out is whether it is
//! valid, and else which of its lines is the first bad one. The contract of `check` is `IsRight` of
//! specs/Checks.antt: it accepts by `IsValid` of `ato_cert`, and names a line by `IsFirstBad` of
//! specs/FirstBad.antt; proofs/OneBadLine.antt has that a certificate has no two of these. The code
//! follows the rules of justification line by line, and knows nothing of how certificates are found.
#![tactic(auto)]

mod checking;
mod failing;
mod picks;
#[cfg(test)]
mod tests;
mod trees;

pub use checking::{Checked, check};
