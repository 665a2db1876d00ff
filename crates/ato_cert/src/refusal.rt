//! Why bytes are refused as a certificate.

/// Why bytes could not be read as a certificate.
#[derive(Clone, Copy, Debug, PartialEq, Eq)]
pub enum CertRefusal {
    /// No certificate over the problem has these bytes as its text. The number is that of the first
    /// line, from 1, after which no certificate's text can follow.
    Bad(u32),
    /// Memory ran out.
    NoMemory,
}
