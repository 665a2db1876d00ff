//! Intervals of one point, and intervals against ranges in any order.
use super::{Pair, Whole, has_ends, interval};
use crate::{Interval, ends_at_corners, inside_one_part, operations_on_points};
use ato_base::{List, NoMemory};
use ato_frac::{Coin, Frac};
use std::alloc::Global;
use std::test::Fail;

/// An interval, ranges, whether they cover it, and whether it meets one of them.
type Row = (Pair, &'static [Pair], bool, bool);

/// Unsorted, overlapping, touching, apart, of one point, without values, none.
const TARGETS: &[Row] = &[
    ((1, 4), &[(3, 5), (0, 3)], true, true),
    ((1, 4), &[(3, 5), (0, 2)], false, true),
    ((1, 4), &[(4, 4), (2, 4), (1, 3)], true, true),
    ((2, 3), &[(1, 2), (3, 4)], false, true),
    ((3, 3), &[(3, 3)], true, true),
    ((3, 3), &[(4, 2), (5, 6), (1, 2)], false, false),
    ((1, 9), &[(8, 9), (1, 3), (2, 8), (0, 1)], true, true),
    ((1, 1), &[], false, false),
];

fn is_as_said<Q: Whole>(alloc: Global, row: &Row) -> Result<bool, NoMemory> {
    let (ends, target, covered, met) = *row;
    let mut ranges = List::new(alloc);
    for range in target {
        ranges.push((Q::whole(range.0), Q::whole(range.1)))?;
    }
    match interval::<Q>(ends) {
        Some(a) => Ok(
            a.is_covered_by(ranges.as_slice()) == covered
                && a.meets_one_of(ranges.as_slice()) == met,
        ),
        None => Ok(false),
    }
}

#[test]
fn ranges_in_any_order_cover_and_meet(rt: HostRuntime) -> Result<(), Fail> {
    let alloc = rt.alloc();
    for (number, row) in TARGETS.iter().enumerate() {
        let both = is_as_said::<Frac>(alloc, row)? && is_as_said::<Coin>(alloc, row)?;
        assert!(rt; both, "case {number}");
    }
    Ok(())
}

fn has_opposite(ends: Pair, want: Pair) -> bool {
    match interval::<Frac>(ends) {
        Some(a) => has_ends(&a.opposite(), want),
        None => false,
    }
}

/// Whether the hull of two intervals is the wanted one, and whether they meet.
fn hulls(a: Pair, b: Pair, want: Pair, meets: bool) -> bool {
    match (interval::<Coin>(a), interval::<Coin>(b)) {
        (Some(a), Some(b)) => has_ends(&a.hull(&b), want) && a.meets(&b) == meets,
        _ => false,
    }
}

#[test]
fn points_opposites_and_hulls(rt: HostRuntime) {
    operations_on_points::<Frac>();
    ends_at_corners::<Frac>();
    inside_one_part::<Coin>();
    let two = Interval::point(Coin(2));
    assert!(rt; two.is_point() && !two.is_zero() && two.holds(&Coin(2)) && !two.holds(&Coin(3)));
    assert!(rt; Interval::point(Coin(0)).is_zero());
    assert!(rt; has_opposite((-1, 3), (-3, 1)));
    assert!(rt; hulls((1, 2), (4, 5), (1, 5), false) && hulls((1, 4), (4, 5), (1, 5), true));
}
