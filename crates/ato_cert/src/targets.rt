//! Ranges in the target of a check.
ghost use Rattle.std.specs.Prelude.{◌↔◌, IsTrue};
ghost use Rattle.ato_cert.specs.Justified.{LiesInTarget};

use crate::comparing::is_at_most;
use crate::{Row, Slot};

impl Slot {
    /// Whether the range of a row lies in the target, so that the check holds at each of its values.
    pub fn has_in_target(&self, row: &Row) -> bool
        ensures { IsTrue result ↔ LiesInTarget self.now row.now }
    {
        is_at_most(&self.low, &row.low) && is_at_most(&row.high, &self.high)
    }
}
