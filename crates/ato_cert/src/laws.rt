//! The laws of certificates, as contracts.
ghost use Rattle.ato_cert.specs.Laws.{IsSound, IsWritable};

/// What a valid certificate of a well made problem says is so: the pick of a built one is good, and
/// where one is refuted no pick is good. It does nothing: the law is its contract.
pub fn valid_is_sound()
    ensures { IsSound }
{}

/// A valid certificate of a problem of at most 10,000 candidates, with numbers below 2^32, has the
/// form of a text that is read back, and its text has fewer than 2^30 bytes. It does nothing: the
/// law is its contract.
pub fn valid_is_writable()
    ensures { IsWritable }
{}
