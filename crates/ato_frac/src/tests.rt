use crate::{
    Coin, DecimalFault, Divides, Exact, Frac, NumFault, absolute, at_most, greater, lesser, power,
    signed,
};
use std::alloc::{AllocError, Global};
use std::cmp::Ordering;
use std::test::Fail;

const MOST: i128 = i128::MAX;

/// The parts of a fraction.
fn parts(fraction: Option<Frac>) -> Option<(i128, i128)> {
    fraction.map(|f| (f.numer(), f.denom()))
}

/// n / d, or 0 where there is none.
fn frac(n: i128, d: i128) -> Frac {
    match Frac::new(n, d) {
        Some(f) => f,
        None => Frac::zero(),
    }
}

/// The parts of the fraction of a text.
fn read(text: &str) -> Result<(i128, i128), DecimalFault> {
    match Frac::from_decimal(text.as_bytes()) {
        Ok(f) => Ok((f.numer(), f.denom())),
        Err(e) => Err(e),
    }
}

/// Numerators, denominators, and the parts of the fraction.
const FRACTIONS: &[(i128, i128, Option<(i128, i128)>)] = &[
    (6, -4, Some((-3, 2))),
    (-6, -4, Some((3, 2))),
    (0, -7, Some((0, 1))),
    (5, 0, None),
    (0, 0, None),
    (MOST, 1, Some((MOST, 1))),
    (MOST, -1, Some((-MOST, 1))),
    (i128::MIN, 1, None),
    (i128::MIN, 2, Some((-(1 << 126), 1))),
    (1, i128::MIN, None),
    (2, i128::MIN, Some((-1, 1 << 126))),
    (i128::MIN, i128::MIN, Some((1, 1))),
    (0, i128::MIN, Some((0, 1))),
    (MOST, MOST, Some((1, 1))),
    (1, MOST, Some((1, MOST))),
];

#[test]
fn fractions_are_reduced_or_refused(rt: HostRuntime) {
    for (n, d, want) in FRACTIONS {
        assert!(rt; parts(Frac::new(*n, *d)) == *want, "{n}/{d}");
    }
}

const PART: i128 = 1 << 126;

/// The parts of a fraction.
type Parts = (i128, i128);

/// Two fractions, their sum and their difference.
const SUMS: &[(Parts, Parts, Option<Parts>, Option<Parts>)] = &[
    ((1, 2), (1, 3), Some((5, 6)), Some((1, 6))),
    ((1, PART), (1, PART), Some((1, PART / 2)), Some((0, 1))),
    ((1, 3), (1, PART), None, None),
    ((MOST, 1), (1, 1), None, Some((MOST - 1, 1))),
    ((MOST, 1), (-1, 1), Some((MOST - 1, 1)), None),
    ((-MOST, 1), (1, 1), Some((1 - MOST, 1)), None),
    ((-3, 4), (3, 4), Some((0, 1)), Some((-3, 2))),
];

/// Whether two fractions have this sum and this difference.
fn have_sums(x: Parts, y: Parts, sum: Option<Parts>, difference: Option<Parts>) -> bool {
    let x = frac(x.0, x.1);
    let y = frac(y.0, y.1);
    parts(x.add(&y).ok()) == sum && parts(x.sub(&y).ok()) == difference
}

#[test]
fn sums_are_exact_or_refused(rt: HostRuntime) {
    for (number, (x, y, sum, difference)) in SUMS.iter().enumerate() {
        assert!(rt; have_sums(*x, *y, *sum, *difference), "case {number}");
    }
    let wide = Some(NumFault::Wide);
    assert!(rt; frac(1, 3).add(&frac(1, PART)).err() == wide);
    assert!(rt; frac(MOST, 1).sub(&frac(-1, 1)).err() == wide);
}

/// What a product or a quotient is.
type Answer = Result<Parts, NumFault>;

/// Two fractions, their product and their quotient.
const PRODUCTS: &[(Parts, Parts, Answer, Answer)] = &[
    ((PART, 3), (3, PART), Ok((1, 1)), Err(NumFault::Wide)),
    ((2, 3), (-9, 4), Ok((-3, 2)), Ok((-8, 27))),
    ((-2, 3), (-9, 4), Ok((3, 2)), Ok((8, 27))),
    ((0, 1), (5, 7), Ok((0, 1)), Ok((0, 1))),
    ((5, 7), (0, 1), Ok((0, 1)), Err(NumFault::ByZero)),
    ((0, 1), (0, 1), Ok((0, 1)), Err(NumFault::ByZero)),
    ((MOST, 1), (2, 1), Err(NumFault::Wide), Ok((MOST, 2))),
    ((1, PART), (1, 2), Err(NumFault::Wide), Ok((1, PART / 2))),
    ((1, PART), (2, 1), Ok((1, PART / 2)), Err(NumFault::Wide)),
];

/// Whether an answer is this one.
fn is_answer(found: Result<Frac, NumFault>, want: Answer) -> bool {
    match found {
        Ok(f) => want == Ok((f.numer(), f.denom())),
        Err(fault) => want == Err(fault),
    }
}

/// Whether two fractions have this product and this quotient.
fn have_products(x: Parts, y: Parts, product: Answer, quotient: Answer) -> bool {
    let x = frac(x.0, x.1);
    let y = frac(y.0, y.1);
    is_answer(x.mul(&y), product) && is_answer(x.div(&y), quotient)
}

#[test]
fn products_and_quotients_are_exact_or_refused(rt: HostRuntime) {
    for (number, (x, y, product, quotient)) in PRODUCTS.iter().enumerate() {
        assert!(rt; have_products(*x, *y, *product, *quotient), "case {number}");
    }
}

/// Two fractions, and how the first stands to the second.
const NEIGHBOURS: &[(Parts, Parts, Ordering)] = &[
    ((1, 2), (2, 4), Ordering::Equal),
    ((-1, 2), (1, 3), Ordering::Less),
    ((-1, 2), (-1, 3), Ordering::Less),
    // (n + 1)/n falls: the cross products have 254 bits and differ by 1
    ((MOST, MOST - 1), (MOST - 1, MOST - 2), Ordering::Less),
    ((MOST - 1, MOST - 2), (MOST, MOST - 1), Ordering::Greater),
    ((1 - MOST, MOST - 2), (-MOST, MOST - 1), Ordering::Less),
    ((MOST - 1, MOST), (MOST, MOST - 1), Ordering::Less),
    // 2^126 · 2^126 against 2^126 · 1: the lower 128 bits are the other way round
    ((1 << 126, 1), (1, 1 << 126), Ordering::Greater),
    ((MOST, 1), (-MOST, 1), Ordering::Greater),
    ((0, 1), (0, 1), Ordering::Equal),
];

/// Whether one fraction stands so to another.
fn stands_so(x: Parts, y: Parts, want: Ordering) -> bool {
    frac(x.0, x.1).compare(&frac(y.0, y.1)) == want
}

#[test]
fn neighbours_are_told_apart(rt: HostRuntime) {
    for (number, (x, y, want)) in NEIGHBOURS.iter().enumerate() {
        assert!(rt; stands_so(*x, *y, *want), "case {number}");
    }
}

/// Texts, and what they are read as.
const TEXTS: &[(&str, Result<(i128, i128), DecimalFault>)] = &[
    ("0", Ok((0, 1))),
    ("7", Ok((7, 1))),
    ("007", Ok((7, 1))),
    ("1.5", Ok((3, 2))),
    ("0.1", Ok((1, 10))),
    ("3.30", Ok((33, 10))),
    ("1e3", Ok((1000, 1))),
    ("1E+3", Ok((1000, 1))),
    ("2.50e-1", Ok((1, 4))),
    ("12.5E1", Ok((125, 1))),
    ("1e003", Ok((1000, 1))),
    ("0e999999999", Ok((0, 1))),
    (
        "0.00e-99999999999999999999999999999999999999999",
        Ok((0, 1)),
    ),
    ("170141183460469231731687303715884105727", Ok((MOST, 1))),
    (
        "170141183460469231731687303715884105728",
        Err(DecimalFault::Wide),
    ),
    (
        "1701411834604692317316873037158841057280",
        Err(DecimalFault::Wide),
    ),
    ("17014118346046923173168730371588410572.7", Ok((MOST, 10))),
    (
        "1e38",
        Ok((100_000_000_000_000_000_000_000_000_000_000_000_000, 1)),
    ),
    (
        "100000000000000000000000000000000000000",
        Ok((100_000_000_000_000_000_000_000_000_000_000_000_000, 1)),
    ),
    ("2e38", Err(DecimalFault::Wide)),
    ("1e39", Err(DecimalFault::Wide)),
    ("1000e36", Err(DecimalFault::Wide)),
    (
        "1e-38",
        Ok((1, 100_000_000_000_000_000_000_000_000_000_000_000_000)),
    ),
    (
        "10e-39",
        Ok((1, 100_000_000_000_000_000_000_000_000_000_000_000_000)),
    ),
    ("1e-39", Err(DecimalFault::Wide)),
    ("5e-39", Err(DecimalFault::Wide)),
    ("0.1e40", Err(DecimalFault::Wide)),
    (
        "0.01e40",
        Ok((100_000_000_000_000_000_000_000_000_000_000_000_000, 1)),
    ),
    ("1e999999999", Err(DecimalFault::Wide)),
    ("1e-999999999", Err(DecimalFault::Wide)),
    (
        "1e99999999999999999999999999999999999999999",
        Err(DecimalFault::Wide),
    ),
];

/// Whether a text is read so.
fn is_read(text: &str, want: Result<(i128, i128), DecimalFault>) -> bool {
    read(text) == want
}

#[test]
fn texts_of_numbers(rt: HostRuntime) {
    for (text, want) in TEXTS {
        assert!(rt; is_read(text, *want), "{text}");
    }
}

/// Texts that are no numbers.
const BAD: &[&str] = &[
    "", ".", "1.", ".5", "1e", "1e+", "1e-", "e5", "+1", "-1", " 1", "1 ", "1\n", "1.5.2", "1e5.0",
    "1e--5", "1e5e5", "1,5", "1_000", "0x10", "1.e5", "1.5ee5", "inf", "NaN", "１", "٣", "1٣", "1²",
    "1k",
];

#[test]
fn texts_that_are_no_numbers(rt: HostRuntime) {
    for text in BAD {
        assert!(rt; is_read(text, Err(DecimalFault::BadText)), "{text}");
    }
}

/// Whether so many zeros are 0, and with a one behind them 1.
fn zeros_are_nothing(alloc: Global, length: usize) -> Result<bool, AllocError> {
    let mut zeros = vec![in alloc; b'0'; length]?;
    let nothing = parts(Frac::from_decimal(zeros.as_slice()).ok());
    zeros.push(b'1')?;
    let one = parts(Frac::from_decimal(zeros.as_slice()).ok());
    Ok(nothing == Some((0, 1)) && one == Some((1, 1)))
}

/// A one and so many zeros.
fn one_and_zeros(alloc: Global, length: usize) -> Result<Vec<u8>, AllocError> {
    let mut text = vec![in alloc; b'1']?;
    for _ in 0..length {
        text.push(b'0')?;
    }
    Ok(text)
}

/// Lengths, and whether a one and so many zeros are a fraction.
const ZEROS: &[(usize, bool)] = &[
    (1, true),
    (37, true),
    (38, true),
    (39, false),
    (400, false),
    (262_143, false),
];

/// Lengths, and whether so many nines are a fraction.
const NINES: &[(usize, bool)] = &[(38, true), (39, false), (400, false), (262_144, false)];

#[test]
fn long_texts(rt: HostRuntime) -> Result<(), Fail> {
    let alloc = rt.alloc();
    for length in [1usize, 38, 39, 400, 262_144].iter() {
        assert!(rt; zeros_are_nothing(alloc, *length)?, "{length} zeros");
    }
    for (length, want) in ZEROS {
        let text = one_and_zeros(alloc, *length)?;
        let is = Frac::from_decimal(text.as_slice()).is_ok();
        assert!(rt; is == *want, "a one and {length} zeros");
    }
    for (length, want) in NINES {
        let nines = vec![in alloc; b'9'; *length]?;
        let is = Frac::from_decimal(nines.as_slice()).is_ok();
        assert!(rt; is == *want, "{length} nines");
    }
    Ok(())
}

#[test]
fn an_exponent_takes_zeros_back(rt: HostRuntime) -> Result<(), Fail> {
    let mut text = one_and_zeros(rt.alloc(), 262_143)?;
    text.extend_from_slice(b"e-262143")?;
    let one = parts(Frac::from_decimal(text.as_slice()).ok());
    assert!(rt; one == Some((1, 1)));
    Ok(())
}

/// 2x + 1, x - 1 and x(x - 1), and how x stands to 1.
fn through<Q: Exact>(x: &Q) -> (Option<Q>, Option<Q>, Option<Q>, Ordering) {
    let one = Q::one();
    let zero = Q::zero();
    let twice = x.plus(x).and_then(|t| t.plus(&one));
    let less = x.minus(&one).and_then(|t| t.plus(&zero));
    let product = less.and_then(|t| x.times(&t));
    (twice, less, product, x.compare(&one))
}

/// What `through` gives of coins.
type Through = (Option<Coin>, Option<Coin>, Option<Coin>, Ordering);

/// Coins, and what `through` gives of them.
const COINS: &[(u64, Through)] = &[
    (
        5,
        (
            Some(Coin(11)),
            Some(Coin(4)),
            Some(Coin(20)),
            Ordering::Greater,
        ),
    ),
    (
        1,
        (Some(Coin(3)), Some(Coin(0)), Some(Coin(0)), Ordering::Equal),
    ),
    (0, (Some(Coin(1)), None, None, Ordering::Less)),
    (
        u64::MAX,
        (None, Some(Coin(u64::MAX - 1)), None, Ordering::Greater),
    ),
];

#[test]
fn through_the_bound(rt: HostRuntime) {
    let (twice, less, product, order) = through(&frac(1, 3));
    assert!(rt; parts(twice) == Some((5, 3)) && parts(less) == Some((-2, 3)));
    assert!(rt; parts(product) == Some((-2, 9)) && order == Ordering::Less);
    for (coins, want) in COINS {
        assert!(rt; through(&Coin(*coins)) == *want, "{coins}");
    }
    assert!(rt; Coin(u64::MAX).plus(&Coin(1)).is_none());
}

fn quotient<Q: Divides>(x: &Q, y: &Q) -> Result<Q, NumFault> {
    x.over(y)
}

#[test]
fn quotients_through_the_bound(rt: HostRuntime) {
    assert!(rt; is_answer(quotient(&frac(1, 2), &frac(3, 4)), Ok((2, 3))));
    let by_zero = quotient(&frac(1, 2), &Frac::zero());
    assert!(rt; is_answer(by_zero, Err(NumFault::ByZero)));
    let wide = quotient(&frac(MOST, 1), &frac(1, 2));
    assert!(rt; is_answer(wide, Err(NumFault::Wide)));
}

/// Fractions with their opposite, their absolute value and their third power.
const TURNED: &[(
    (i128, i128),
    (i128, i128),
    (i128, i128),
    Option<(i128, i128)>,
)] = &[
    ((-2, 3), (2, 3), (2, 3), Some((-8, 27))),
    ((1, 10), (-1, 10), (1, 10), Some((1, 1000))),
    ((0, 1), (0, 1), (0, 1), Some((0, 1))),
    ((MOST, 1), (-MOST, 1), (MOST, 1), None),
];

/// Whether a fraction has these.
fn is_turned(
    x: &Frac,
    opposite: (i128, i128),
    size: (i128, i128),
    cube: Option<(i128, i128)>,
) -> bool {
    parts(Some(x.opposite())) == Some(opposite)
        && parts(absolute(x)) == Some(size)
        && parts(power(x, 3)) == cube
}

#[test]
fn opposites_absolute_values_and_powers(rt: HostRuntime) {
    for (x, opposite, size, cube) in TURNED {
        assert!(rt;
            is_turned(&frac(x.0, x.1), *opposite, *size, *cube),
            "{}",
            x.0
        );
    }
    assert!(rt; absolute(&Coin(7)) == Some(Coin(7)) && power(&Coin(1 << 32), 2).is_none());
    assert!(rt; parts(Some(Frac::power_of_ten(-2))) == Some((1, 100)));
    assert!(rt; parts(Some(Frac::power_of_ten(3))) == Some((1000, 1)));
    assert!(rt; signed(true, 5) == -5 && signed(false, 5) == 5);
}

#[test]
fn the_lesser_and_the_greater(rt: HostRuntime) {
    let (third, half) = (frac(1, 3), frac(1, 2));
    assert!(rt; at_most(&third, &half) && !at_most(&half, &third) && at_most(&half, &half));
    assert!(rt; lesser(half, third) == third && greater(third, half) == half);
    assert!(rt; lesser(Coin(2), Coin(3)) == Coin(2) && greater(Coin(2), Coin(3)) == Coin(3));
}
