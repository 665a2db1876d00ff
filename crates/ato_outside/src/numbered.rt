ghost use Rattle.std.specs.Prelude.{◌≡◌};
ghost use Rattle.ato_outside.specs.Numbered.{is_listed, kept_bytes};

/// Whether the call of this number is to fail.
pub(crate) fn is_listed(fail: &[u32], call: u64) -> bool
    ensures { result ≡ is_listed fail.now call }
{
    fail.iter().any(|number| u64::from(*number) == call)
}

/// How many bytes the call of this number keeps, where it is to fail.
pub(crate) fn kept_bytes(fail: &[(u32, u32)], call: u64) -> Option<u32>
    ensures { result ≡ kept_bytes fail.now call }
{
    for (number, kept) in fail {
        if u64::from(*number) == call {
            return Some(*kept);
        }
    }
    None
}
