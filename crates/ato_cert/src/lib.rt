//! Certificates for one slot with one check.
//!
//! A problem is the candidates of a slot, each with the range of its attribute, and the target that
//! every value has to lie in. A certificate of it is built, with the number of a candidate, or refuted,
//! with a tree that closes every candidate; `cert_text` writes it and `read_cert` reads it back.
//! `IsValid` of specs/Valid.antt says which certificates are right, `IsGood` and `NoGood` of
//! specs/Good.antt what picks have to be, and `valid_is_sound` has the law between them as its
//! contract: whoever wrote a valid certificate, what it says is so. The text is `cert_text` of
//! specs/Texts.antt, and `IsReadable` of specs/Readable.antt says which certificates have a text that
//! is read, which each valid one of at most 10,000 candidates
//! has (`valid_is_writable`). Certificates are found by `ato_search` and checked by `ato_check`.
#![tactic(auto)]

mod cert;
mod comparing;
mod counting;
mod entry;
mod halving;
mod laws;
mod line;
mod lines;
mod numbers;
mod parts;
mod pieces;
mod problem;
mod reading;
mod refusal;
mod targets;
#[cfg(test)]
mod tests;
mod well_made;
mod writing;

pub use cert::{BoxTree, Cert, PickTree, Proof, Verdict};
pub use comparing::is_at_most;
pub use counting::nodes;
pub use entry::read_cert;
pub use halving::halves;
pub use laws::{valid_is_sound, valid_is_writable};
pub use problem::{Problem, Row, Slot};
pub use refusal::CertRefusal;
pub use writing::cert_text;
