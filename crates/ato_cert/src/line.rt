//! The first line of a pick tree, and why a text could not be read.
ghost use Rattle.std.specs.Prelude.{◌≡◌};
ghost use Rattle.ato_cert.specs.declared.line.ReadFault.TheVariants as faults;

use ato_base::{List, NoMemory};
use ato_frac::Frac;
use std::alloc::AllocError;

/// The first line of a pick tree.
#[derive(Drop)]
pub(crate) enum Line {
    /// A slot without a row.
    Empty(u32),
    /// A slot and the row number that divides it.
    Row(u32, u32),
    /// A check and the fractions that select a point.
    Fails(u32, List<Frac>),
}

/// Why a text could not be read.
#[derive(Clone, Copy, Debug, PartialEq, Eq)]
pub(crate) enum ReadFault {
    /// No text can go on with the line that begins where so many bytes are left.
    At(usize),
    /// Memory ran out.
    NoMemory,
}

impl From<NoMemory> for ReadFault {
    ghost from_gives = { λ _ fault. fault ≡ faults.NoMemory };

    fn from(_error: NoMemory) -> ReadFault {
        ReadFault::NoMemory
    }
}
