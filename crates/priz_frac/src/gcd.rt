//! The greatest common divisor.
ghost use Rattle.std.specs.Prelude.{◌≡◌, ◌<◌, ◌≤◌};
ghost use Rattle.priz_frac.specs.Gcd.{gcd};

use crate::quotient::SHORT;

pub fn gcd_of(a: u64, b: u64) -> u64
    ensures value { result ≡ gcd a b }
    ensures positive { 0 < b → 0 < result }
    ensures within { 0 < b → result ≤ b }
{
    let (mut x, mut y) = if a < b { (b, a) } else { (a, b) };
    while y > 1 {
        let rest = x % y;
        x = y;
        y = rest;
    }
    if y == 1 { 1 } else { x }
}

pub fn mixed_gcd_of(a: u128, b: u64) -> u64
    requires { 0 < b }
    ensures value { result ≡ gcd a b }
    ensures positive { 0 < result }
    ensures within { result ≤ b }
{
    if a <= SHORT {
        gcd_of(a as u64, b)
    } else {
        gcd_of(b, (a % b as u128) as u64)
    }
}

pub fn wide_gcd_of(a: u128, b: u128) -> u128
    ensures value { result ≡ gcd a b }
    ensures positive { 0 < b → 0 < result }
{
    let mut x = a;
    let mut y = b;
    while y > SHORT {
        let rest = x % y;
        x = y;
        y = rest;
    }
    if y == 0 {
        x
    } else {
        mixed_gcd_of(x, y as u64) as u128
    }
}
