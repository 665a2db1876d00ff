//! Units that are known.
ghost use Rattle.ato_units.specs.Fractions.{IsSmallPower};

use crate::Dim;

/// A unit that is known: its dimension, and the power of ten that its scale is.
#[derive(Clone, Copy)]
pub(crate) struct Known {
    pub(crate) dim: Dim,
    pub(crate) tens: i32,
    ghost small: { IsSmallPower tens },
}
