mod targets;

use crate::{Interval, IntervalSet, RangeFault};
use ato_base::NoMemory;
use ato_frac::{Coin, Divides, Exact, Frac};
use std::alloc::Global;
use std::test::Fail;

/// The ends of an interval, as whole numbers.
type Pair = (i128, i128);

const MOST: i128 = 0xffff_ffff_ffff_ffff;

/// Exact numbers of which whole ones can be made; 0 stands for what the type does not have.
trait Whole: Exact {
    fn whole(n: i128) -> Self;
}

impl Whole for Frac {
    fn whole(n: i128) -> Frac {
        match Frac::new(n, 1) {
            Some(number) => number,
            None => Frac::zero(),
        }
    }
}

impl Whole for Coin {
    fn whole(n: i128) -> Coin {
        match u64::try_from(n) {
            Ok(number) => Coin(number),
            Err(_) => Coin(0),
        }
    }
}

#[derive(Clone, Copy)]
enum Operation {
    Add,
    Sub,
    Mul,
    Min,
    Max,
    Abs,
    Pow(u32),
}

use Operation::{Abs, Add, Max, Min, Mul, Pow, Sub};

/// The answer of an operation. An exponent that is not 1 to 16 counts as 1.
fn answer<Q: Exact>(
    operation: Operation,
    a: &Interval<Q>,
    b: &Interval<Q>,
) -> Result<Interval<Q>, RangeFault> {
    match operation {
        Add => a.add(b),
        Sub => a.sub(b),
        Mul => a.mul(b),
        Min => a.min(b),
        Max => a.max(b),
        Abs => a.abs(),
        Pow(k) => a.pow(if 1 <= k && k <= 16 { k } else { 1 }),
    }
}

fn has_ends<Q: Whole>(part: &Interval<Q>, ends: Pair) -> bool {
    Q::whole(ends.0).compare(&part.low()).is_eq() && Q::whole(ends.1).compare(&part.high()).is_eq()
}

fn agrees<Q: Whole>(
    answer: Result<Interval<Q>, RangeFault>,
    want: Result<Pair, RangeFault>,
) -> bool {
    match answer {
        Ok(part) => match want {
            Ok(ends) => has_ends(&part, ends),
            Err(_) => false,
        },
        Err(fault) => want == Err(fault),
    }
}

fn interval<Q: Whole>(ends: Pair) -> Option<Interval<Q>> {
    Interval::new(Q::whole(ends.0), Q::whole(ends.1))
}

/// Whether an operation on two intervals has the wanted answer.
fn gives<Q: Whole>(operation: Operation, a: Pair, b: Pair, want: Result<Pair, RangeFault>) -> bool {
    match interval::<Q>(a) {
        Some(a) => match interval::<Q>(b) {
            Some(b) => agrees(answer(operation, &a, &b), want),
            None => false,
        },
        None => false,
    }
}

/// The same of a quotient.
fn divides<Q: Whole + Divides>(a: Pair, b: Pair, want: Result<Pair, RangeFault>) -> bool {
    match interval::<Q>(a) {
        Some(a) => match interval::<Q>(b) {
            Some(b) => agrees(a.div(&b), want),
            None => false,
        },
        None => false,
    }
}

const WIDE: Result<Pair, RangeFault> = Err(RangeFault::Wide);

/// An operation, two intervals, and the answer.
type Row = (Operation, Pair, Pair, Result<Pair, RangeFault>);

const FRACTIONS: &[Row] = &[
    (Add, (-1, 3), (2, 5), Ok((1, 8))),
    (Sub, (-1, 3), (2, 5), Ok((-6, 1))),
    (Mul, (-1, 2), (-3, 4), Ok((-6, 8))),
    (Mul, (-3, -2), (1, 4), Ok((-12, -2))),
    (Min, (-1, 7), (2, 5), Ok((-1, 5))),
    (Max, (-1, 7), (2, 5), Ok((2, 7))),
    (Abs, (-5, 3), (0, 0), Ok((0, 5))),
    (Abs, (-5, -3), (0, 0), Ok((3, 5))),
    (Pow(2), (-2, 3), (0, 0), Ok((0, 9))),
    (Pow(2), (-3, -2), (0, 0), Ok((4, 9))),
    (Pow(3), (-2, 3), (0, 0), Ok((-8, 27))),
    (Pow(16), (-1, 1 << 8), (0, 0), WIDE),
];

/// Two intervals and their quotient.
const QUOTIENTS: &[(Pair, Pair, Result<Pair, RangeFault>)] = &[
    ((1, 2), (-1, 1), Err(RangeFault::HoldsZero)),
    ((1, 2), (0, 1), Err(RangeFault::HoldsZero)),
    ((3, 6), (-3, -1), Ok((-6, -1))),
    ((-4, 6), (1, 2), Ok((-4, 6))),
];

#[test]
fn operations_on_fractions(rt: HostRuntime) {
    for (number, (operation, a, b, want)) in FRACTIONS.iter().enumerate() {
        assert!(rt; gives::<Frac>(*operation, *a, *b, *want), "case {number}");
    }
    for (number, (a, b, want)) in QUOTIENTS.iter().enumerate() {
        assert!(rt; divides::<Frac>(*a, *b, *want), "case {number}");
    }
    assert!(rt; interval::<Frac>((3, 2)).is_none());
}

const COINS: &[Row] = &[
    (Add, (1, 3), (2, 5), Ok((3, 8))),
    (Add, (MOST, MOST), (1, 1), WIDE),
    (Sub, (4, 6), (1, 3), Ok((1, 5))),
    (Sub, (4, 6), (1, 5), WIDE),
    (Mul, (0, 2), (3, 4), Ok((0, 8))),
    (Min, (1, 7), (2, 5), Ok((1, 5))),
    (Max, (1, 7), (2, 5), Ok((2, 7))),
    (Abs, (0, 3), (0, 0), Ok((0, 3))),
    (Pow(4), (2, 5), (0, 0), Ok((16, 625))),
    (Pow(2), (0, 1 << 32), (0, 0), WIDE),
];

#[test]
fn operations_on_coins(rt: HostRuntime) {
    for (number, (operation, a, b, want)) in COINS.iter().enumerate() {
        assert!(rt; gives::<Coin>(*operation, *a, *b, *want), "case {number}");
    }
}

/// The union of intervals.
fn set<Q: Whole>(alloc: Global, parts: &[Pair]) -> Result<IntervalSet<Q>, NoMemory> {
    let mut all = IntervalSet::empty(alloc);
    for ends in parts {
        if let Some(part) = interval(*ends) {
            let one = IntervalSet::one(alloc, part)?;
            all = all.union(&one)?;
        }
    }
    Ok(all)
}

/// Whether a set has these parts.
fn has_parts<Q: Whole>(set: &IntervalSet<Q>, want: &[Pair]) -> bool {
    let parts = set.parts();
    if parts.len() != want.len() {
        return false;
    }
    for (part, ends) in parts.iter().zip(want) {
        if !has_ends(part, *ends) {
            return false;
        }
    }
    true
}

/// Whether two sets have this union and these common parts.
fn makes<Q: Whole>(
    alloc: Global,
    left: &[Pair],
    right: &[Pair],
    union: &[Pair],
    meet: &[Pair],
) -> Result<bool, NoMemory> {
    let left: IntervalSet<Q> = set(alloc, left)?;
    let right: IntervalSet<Q> = set(alloc, right)?;
    let all = left.union(&right)?;
    let both = left.meet(&right)?;
    Ok(has_parts(&all, union) && has_parts(&both, meet))
}

/// Two sets, their union and their common parts: touching, apart, inside, many, empty.
const SETS: &[(&[Pair], &[Pair], &[Pair], &[Pair])] = &[
    (&[(1, 2)], &[(2, 3)], &[(1, 3)], &[(2, 2)]),
    (&[(1, 2)], &[(3, 4)], &[(1, 2), (3, 4)], &[]),
    (&[(1, 9)], &[(3, 4), (6, 6)], &[(1, 9)], &[(3, 4), (6, 6)]),
    (
        &[(1, 2), (4, 5), (7, 8)],
        &[(2, 4), (8, 9)],
        &[(1, 5), (7, 9)],
        &[(2, 2), (4, 4), (8, 8)],
    ),
    (&[], &[(0, 0)], &[(0, 0)], &[]),
];

#[test]
fn sets_join_and_meet(rt: HostRuntime) -> Result<(), Fail> {
    for (number, (left, right, union, meet)) in SETS.iter().enumerate() {
        let fractions = makes::<Frac>(rt.alloc(), left, right, union, meet)?;
        let coins = makes::<Coin>(rt.alloc(), right, left, union, meet)?;
        assert!(rt; fractions && coins, "case {number}");
    }
    Ok(())
}

/// Whether the one set is a subset of the other.
fn is_inside<Q: Whole>(alloc: Global, left: &[Pair], right: &[Pair]) -> Result<bool, NoMemory> {
    let left: IntervalSet<Q> = set(alloc, left)?;
    let right: IntervalSet<Q> = set(alloc, right)?;
    Ok(left.subset(&right))
}

/// Two sets, and whether the one is a subset of the other.
const SUBSETS: &[(&[Pair], &[Pair], bool)] = &[
    (&[(1, 4)], &[(1, 2), (3, 4)], false),
    (&[(1, 2), (3, 4)], &[(1, 4)], true),
    (&[(0, 0), (2, 2), (5, 6)], &[(0, 1), (2, 3), (4, 6)], true),
    (&[(2, 4)], &[(3, 4)], false),
    (&[], &[(1, 1)], true),
];

/// Values, and whether the set from 1 to 2 and from 4 to 5 holds them.
const VALUES: &[(u64, bool)] = &[(0, false), (1, true), (3, false), (5, true), (6, false)];

/// Whether the hull of a set has these ends.
fn has_hull<Q: Whole>(set: &IntervalSet<Q>, ends: Pair) -> bool {
    match set.hull() {
        Some(hull) => has_ends(&hull, ends),
        None => false,
    }
}

#[test]
fn sets_hold_all_values_in_their_parts(rt: HostRuntime) -> Result<(), Fail> {
    for (number, (left, right, want)) in SUBSETS.iter().enumerate() {
        let fractions = is_inside::<Frac>(rt.alloc(), left, right)?;
        let coins = is_inside::<Coin>(rt.alloc(), left, right)?;
        assert!(rt; fractions == *want && coins == *want, "case {number}");
    }
    let two: IntervalSet<Coin> = set(rt.alloc(), &[(1, 2), (4, 5)])?;
    for (value, want) in VALUES {
        assert!(rt; two.holds(&Coin(*value)) == *want, "{value}");
    }
    assert!(rt; has_hull(&two, (1, 5)));
    assert!(rt; IntervalSet::<Frac>::empty(rt.alloc()).hull().is_none());
    Ok(())
}
