//! The middle of some rows, at which a `row` line divides them.
ghost use Rattle.std.specs.Prelude.{◌≤◌, length};
ghost use Rattle.ato_cert.specs.Problems.{AreRising};
ghost use Rattle.ato_cert.specs.Halves.{AreHalves};

use crate::Row;

/// Divides rows at the middle, the low side with one more where they are odd: the rows up to a row
/// number, this number, and the rows above it.
pub fn halves(rows: &[Row]) -> (&[Row], u32, &[Row])
    requires several { 2 ≤ length rows.now }
    requires rising { AreRising rows.now }
    ensures { AreHalves rows.now result.0.now result.1 result.2.now }
{
    let middle = (rows.len() - 1) / 2;
    let (low, high) = rows.split_at(middle + 1);
    (low, rows[middle].number, high)
}
