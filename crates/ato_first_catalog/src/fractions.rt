//! Ranges of whole numbers as fractions.
ghost use Rattle.ato_first_catalog.specs.Catalogue.{IsWhole, ShowsCell};
ghost use Rattle.ato_first_catalog.specs.Ranges.{range_of};

use crate::ranges::read_range;
use ato_frac::Frac;

/// A whole number as a fraction, n over 1.
pub fn whole(number: u64) -> Frac
    ensures { IsWhole result number }
{
    match Frac::new(i128::from(number), 1) {
        Some(fraction) => fraction,
        None => unreachable!(),
    }
}

/// The two ends of the range that a cell writes, if it does.
pub(crate) fn read_cell(cell: &[u8]) -> Option<(Frac, Frac)>
    ensures { ShowsCell result (range_of cell.now) }
{
    let (low, high) = read_range(cell)?;
    Some((whole(low), whole(high)))
}
