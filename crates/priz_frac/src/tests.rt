// Values that were worked out by hand.
use crate::{Frac, FracFault};
use std::cmp::Ordering;

/// A numerator and a denominator.
pub type Given = (i128, i128);

/// The parts of a result.
pub type Parts = Result<(i64, i64), FracFault>;

/// The greatest part of a fraction, 2^63 - 1.
pub const WIDEST: i64 = i64::MAX;

/// The same, as it is given.
pub const WIDE: i128 = 9223372036854775807;

pub fn parts(x: Frac) -> (i64, i64) {
    (x.num(), x.den())
}

pub fn made(x: Given) -> Result<Frac, FracFault> {
    Frac::of(x.0, x.1)
}

const LOWEST: [(Given, Parts); 30] = [
    ((2, 4), Ok((1, 2))),
    ((4, 6), Ok((2, 3))),
    ((1071, 462), Ok((51, 22))),
    ((6, 3), Ok((2, 1))),
    // signs
    ((1, -2), Ok((-1, 2))),
    ((-6, 9), Ok((-2, 3))),
    ((-6, -9), Ok((2, 3))),
    // zero
    ((0, 7), Ok((0, 1))),
    ((0, -5), Ok((0, 1))),
    ((0, i128::MIN), Ok((0, 1))),
    ((5, 0), Err(FracFault::ZeroDivisor)),
    ((1, 0), Err(FracFault::ZeroDivisor)),
    ((0, 0), Err(FracFault::ZeroDivisor)),
    ((i128::MIN, 0), Err(FracFault::ZeroDivisor)),
    // the widest parts
    ((WIDE, 1), Ok((WIDEST, 1))),
    ((-WIDE, 1), Ok((-WIDEST, 1))),
    ((1, WIDE), Ok((1, WIDEST))),
    ((WIDE + 1, 2), Ok((4611686018427387904, 1))),
    ((-WIDE - 1, 2), Ok((-4611686018427387904, 1))),
    ((2, WIDE + 1), Ok((1, 4611686018427387904))),
    ((WIDE + 1, 1), Err(FracFault::Width)),
    ((-WIDE - 1, 1), Err(FracFault::Width)),
    ((1, WIDE + 1), Err(FracFault::Width)),
    ((1, -WIDE - 1), Err(FracFault::Width)),
    ((2, 18446744073709551616), Err(FracFault::Width)),
    // the widest numbers
    ((i128::MIN, i128::MIN), Ok((1, 1))),
    ((i128::MAX, -i128::MAX), Ok((-1, 1))),
    ((i128::MIN, 1), Err(FracFault::Width)),
    ((i128::MIN, -1), Err(FracFault::Width)),
    ((i128::MIN, i128::MAX), Err(FracFault::Width)),
];

#[test]
fn reduces_to_lowest_terms(rt: HostRuntime) {
    for (given, lowest) in LOWEST {
        assert_eq!(rt; made(given).map(parts), lowest, "{given:?}");
    }
}

const NEGATIVES: [(Given, (i64, i64)); 5] = [
    ((1, 2), (-1, 2)),
    ((-3, 4), (3, 4)),
    ((0, 1), (0, 1)),
    ((WIDE, 1), (-WIDEST, 1)),
    ((-WIDE, 1), (WIDEST, 1)),
];

#[test]
fn turns_the_sign(rt: HostRuntime) {
    for (x, expected) in NEGATIVES {
        assert_eq!(rt; made(x).map(|x| parts(x.neg())), Ok(expected), "{x:?}");
    }
}

fn order(x: Given, y: Given) -> Result<Ordering, FracFault> {
    Ok(made(x)?.cmp(made(y)?))
}

const ORDERS: [(Given, Given, Ordering); 12] = [
    ((1, 2), (1, 3), Ordering::Greater),
    ((1, 2), (2, 3), Ordering::Less),
    // one denominator
    ((-2, 5), (-1, 5), Ordering::Less),
    ((3, 7), (2, 7), Ordering::Greater),
    ((-1, 2), (-1, 3), Ordering::Less),
    ((-1, 2), (1, 3), Ordering::Less),
    ((1, 3), (-1, 2), Ordering::Greater),
    ((2, 4), (1, 2), Ordering::Equal),
    ((0, 3), (0, -5), Ordering::Equal),
    ((0, 1), (1, WIDE), Ordering::Less),
    ((WIDE, WIDE - 1), (WIDE - 1, WIDE - 2), Ordering::Less),
    ((WIDE, 1), (-WIDE, 1), Ordering::Greater),
];

#[test]
fn compares(rt: HostRuntime) {
    for (x, y, expected) in ORDERS {
        assert_eq!(rt; order(x, y), Ok(expected), "{x:?} and {y:?}");
    }
}

const WHOLES: [(Given, Option<i64>); 9] = [
    ((4, 2), Some(2)),
    ((6, 3), Some(2)),
    ((-6, 3), Some(-2)),
    ((0, 7), Some(0)),
    ((WIDE, 1), Some(WIDEST)),
    ((-WIDE, 1), Some(-WIDEST)),
    ((1, 2), None),
    ((-7, 2), None),
    ((1, WIDE), None),
];

#[test]
fn tells_whole_numbers(rt: HostRuntime) {
    for (x, expected) in WHOLES {
        assert_eq!(rt; made(x).map(|x| x.whole()), Ok(expected), "{x:?}");
    }
}
