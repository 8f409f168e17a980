// Values that were worked out by hand.
use crate::FracFault;
use crate::tests::{Given, Parts, WIDE, WIDEST, made, parts};

/// 2^62, as it is given.
const HALF: i128 = 4611686018427387904;

fn sum(x: Given, y: Given) -> Parts {
    Ok(parts(made(x)?.add(made(y)?)?))
}

const SUMS: [(Given, Given, Parts); 17] = [
    ((2, 1), (3, 1), Ok((5, 1))),
    ((1, 2), (1, 3), Ok((5, 6))),
    ((1, 6), (1, 3), Ok((1, 2))),
    ((1, 3), (1, 6), Ok((1, 2))),
    ((5, 12), (7, 18), Ok((29, 36))),
    ((1, 6), (1, 10), Ok((4, 15))),
    ((-1, 2), (1, 2), Ok((0, 1))),
    ((3, 4), (-5, 6), Ok((-1, 12))),
    ((WIDE, 1), (-1, 1), Ok((9223372036854775806, 1))),
    // the pair before it is reduced passes 64 bits
    ((WIDE, 2), (WIDE, 2), Ok((WIDEST, 1))),
    ((-WIDE, 2), (-WIDE, 2), Ok((-WIDEST, 1))),
    ((1, HALF), (1, HALF), Ok((1, 2305843009213693952))),
    ((1, WIDE), (1, WIDE), Ok((2, WIDEST))),
    ((WIDE, 1), (1, 1), Err(FracFault::Width)),
    ((-WIDE, 1), (-1, 1), Err(FracFault::Width)),
    ((1, WIDE), (1, 2), Err(FracFault::Width)),
    // a numerator of 65 bits over a denominator of 64
    (
        (4294967295, 4294967294),
        (4294967294, 4294967295),
        Err(FracFault::Width),
    ),
];

#[test]
fn adds(rt: HostRuntime) {
    for (x, y, expected) in SUMS {
        assert_eq!(rt; sum(x, y), expected, "{x:?} + {y:?}");
    }
}

fn difference(x: Given, y: Given) -> Parts {
    Ok(parts(made(x)?.sub(made(y)?)?))
}

const DIFFERENCES: [(Given, Given, Parts); 8] = [
    ((1, 2), (1, 3), Ok((1, 6))),
    ((1, 3), (1, 2), Ok((-1, 6))),
    ((5, 6), (1, 3), Ok((1, 2))),
    ((1, 2), (-1, 3), Ok((5, 6))),
    ((3, 4), (3, 4), Ok((0, 1))),
    ((WIDE, 1), (WIDE, 1), Ok((0, 1))),
    ((-WIDE, 1), (1, 1), Err(FracFault::Width)),
    ((WIDE, 1), (-1, 1), Err(FracFault::Width)),
];

#[test]
fn subtracts(rt: HostRuntime) {
    for (x, y, expected) in DIFFERENCES {
        assert_eq!(rt; difference(x, y), expected, "{x:?} - {y:?}");
    }
}

fn product(x: Given, y: Given) -> Parts {
    Ok(parts(made(x)?.mul(made(y)?)?))
}

const PRODUCTS: [(Given, Given, Parts); 14] = [
    ((2, 3), (3, 4), Ok((1, 2))),
    ((-2, 3), (3, 2), Ok((-1, 1))),
    ((-1, 2), (-1, 2), Ok((1, 4))),
    ((0, 1), (-7, 5), Ok((0, 1))),
    ((6, 35), (-14, 9), Ok((-4, 15))),
    ((WIDE, 1), (1, WIDE), Ok((1, 1))),
    ((1, WIDE), (WIDE, 1), Ok((1, 1))),
    (
        (WIDE, WIDE - 1),
        (WIDE - 1, WIDE - 2),
        Ok((WIDEST, WIDEST - 2)),
    ),
    (
        (2147483648, 1),
        (2147483648, 1),
        Ok((4611686018427387904, 1)),
    ),
    ((4294967296, 1), (2147483648, 1), Err(FracFault::Width)),
    ((4294967296, 1), (-2147483648, 1), Err(FracFault::Width)),
    ((WIDE, 1), (WIDE, 1), Err(FracFault::Width)),
    ((1, HALF), (1, 2), Err(FracFault::Width)),
    ((1, WIDE), (1, 2), Err(FracFault::Width)),
];

#[test]
fn multiplies(rt: HostRuntime) {
    for (x, y, expected) in PRODUCTS {
        assert_eq!(rt; product(x, y), expected, "{x:?} * {y:?}");
    }
}

fn quotient(x: Given, y: Given) -> Parts {
    Ok(parts(made(x)?.div(made(y)?)?))
}

const QUOTIENTS: [(Given, Given, Parts); 12] = [
    ((1, 2), (3, 4), Ok((2, 3))),
    ((1, 2), (-3, 4), Ok((-2, 3))),
    ((1, 2), (-1, 3), Ok((-3, 2))),
    ((-2, 3), (-2, 3), Ok((1, 1))),
    ((0, 1), (-3, 1), Ok((0, 1))),
    ((1, 1), (WIDE, 1), Ok((1, WIDEST))),
    ((WIDE, 1), (-WIDE, 1), Ok((-1, 1))),
    ((1, 2), (0, 1), Err(FracFault::ZeroDivisor)),
    ((0, 1), (0, 1), Err(FracFault::ZeroDivisor)),
    ((WIDE, 1), (0, 1), Err(FracFault::ZeroDivisor)),
    ((WIDE, 1), (1, 2), Err(FracFault::Width)),
    ((1, 2), (WIDE, 1), Err(FracFault::Width)),
];

#[test]
fn divides(rt: HostRuntime) {
    for (x, y, expected) in QUOTIENTS {
        assert_eq!(rt; quotient(x, y), expected, "{x:?} / {y:?}");
    }
}
