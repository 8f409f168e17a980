//! A fraction, and its arithmetic.
ghost use Rattle.std.specs.Prelude.{◌≡◌, ◌<◌, ◌≤◌, ◌*◌, ℤ, pos, ◌+ℤ◌, ◌*ℤ◌, ◌≤ℤ◌, ◌≢◌, unsigned_abs, IfSome};
ghost use Rattle.priz_frac.specs.Arithmetic.{sum_of, difference_of, product_of, negative_of, inverse_of};
ghost use Rattle.priz_frac.specs.Gcd.{gcd};
ghost use Rattle.priz_frac.specs.Lowest.{low, IsLowest};
ghost use Rattle.priz_frac.specs.Narrow.{widest, IsNarrow};
ghost use Rattle.priz_frac.specs.Outcome.{fitted, narrow, narrow_ratio, narrow_quotient};
ghost use Rattle.priz_frac.specs.Order.{order_of};
ghost use Rattle.priz_frac.specs.Whole.{whole, whole_of};
ghost use Rattle.priz_frac.specs.Sign.{signed_number, signed_ratio};

use crate::FracFault;
use crate::gcd::{gcd_of, mixed_gcd_of, wide_gcd_of};
use crate::quotient::quotient;
use std::cmp::Ordering;
use std::marker::Model;

/// A fraction in lowest terms, with a positive denominator. Neither part is past 2^63 - 1.
#[derive(Clone, Copy, Debug, PartialEq, Eq)]
pub struct Frac {
    num: i64,
    den: u64,
}

impl Model for Frac {
    ghost use Rattle.priz_frac.specs.Ratio.{Ratio};
    ghost use Rattle.priz_frac.specs.Narrow.{IsNarrow};

    ghost Value = { Ratio };

    ghost view = { λ f. record { num = f.num; den = f.den } };

    ghost invariant = { λ f. IsNarrow (record { num = f.num; den = f.den }) };

    ghost inverse = { λ r. record { num = r.num; den = r.den } };
}

impl Frac {
    /// Both numbers may have any sign and any width.
    pub fn of(n: i128, d: i128) -> Result<Frac, FracFault>
        ensures { result ≡ narrow_ratio n d }
    {
        if d == 0 {
            return Err(FracFault::ZeroDivisor);
        }
        reduce((n < 0) != (d < 0), n.unsigned_abs(), d.unsigned_abs())
    }

    /// A whole number. The least `i64` is none that a fraction has.
    pub fn from_whole(n: i64) -> Frac
        requires { unsigned_abs n ≤ widest }
        ensures { result ≡ whole n }
    {
        Frac { num: n, den: 1 }
    }

    /// The numerator, which has the sign of the fraction.
    pub fn num(self) -> i64
        ensures value { result ≡ self.num }
        ensures narrow { IsNarrow self }
    {
        self.num
    }

    pub fn den(self) -> i64
        ensures value { result ≡ pos self.den }
        ensures narrow { IsNarrow self }
    {
        self.den as i64
    }

    pub fn add(self, other: Frac) -> Result<Frac, FracFault>
        ensures { result ≡ narrow (sum_of self other) }
    {
        let common = common_divisor(self, other);
        if common == 1 {
            fit_sum(self, other)
        } else {
            add_over(self, other, common)
        }
    }

    pub fn sub(self, other: Frac) -> Result<Frac, FracFault>
        ensures { result ≡ narrow (difference_of self other) }
    {
        self.add(other.neg())
    }

    pub fn mul(self, other: Frac) -> Result<Frac, FracFault>
        ensures { result ≡ narrow (product_of self other) }
    {
        crossed(self, other)
    }

    pub fn div(self, other: Frac) -> Result<Frac, FracFault>
        ensures { result ≡ narrow_quotient self other }
    {
        if other.num == 0 {
            return Err(FracFault::ZeroDivisor);
        }
        crossed(self, inverse(other))
    }

    pub fn neg(self) -> Frac
        ensures { result ≡ negative_of self }
    {
        let num = -self.num;
        Frac { num, den: self.den }
    }

    pub fn cmp(self, other: Frac) -> Ordering
        ensures { result ≡ order_of self other }
    {
        if self.den == other.den {
            self.num.cmp(&other.num)
        } else {
            cross(self, other).cmp(&cross(other, self))
        }
    }

    /// The fraction as a whole number, if it is one.
    pub fn whole(self) -> Option<i64>
        ensures value { result ≡ whole_of self }
        ensures bound { IfSome result (λ z. unsigned_abs z ≤ widest) }
    {
        if self.den == 1 { Some(self.num) } else { None }
    }
}

fn cross(x: Frac, y: Frac) -> i128
    ensures value { result ≡ x.num *ℤ pos y.den }
    ensures bound { unsigned_abs result ≤ widest * widest }
    ensures positive { 0 < y.den }
{
    times(x.num(), y.den())
}

fn common_denominator(x: Frac, y: Frac) -> u128
    ensures value { result ≡ x.den * y.den }
    ensures positive { 0 < result }
{
    x.den() as u128 * y.den() as u128
}

fn common_divisor(x: Frac, y: Frac) -> u64
    ensures value { result ≡ gcd x.den y.den }
    ensures positive { 0 < result }
    ensures left { IsLowest x }
    ensures right { IsLowest y }
{
    gcd_of(x.den, y.den)
}

fn product_of_numerators(x: Frac, y: Frac) -> i128
    ensures value { result ≡ x.num *ℤ y.num }
    ensures bound { unsigned_abs result ≤ widest * widest }
{
    times(x.num(), y.num())
}

fn times(a: i64, b: i64) -> i128
    requires left { unsigned_abs a ≤ widest }
    requires right { unsigned_abs b ≤ widest }
    ensures value { result ≡ a *ℤ b }
    ensures bound { unsigned_abs result ≤ widest * widest }
{
    a as i128 * b as i128
}

// The sum, where the denominators have a common divisor. No other factor is left in it.
fn add_over(x: Frac, y: Frac, common: u64) -> Result<Frac, FracFault>
    requires common { common ≡ gcd x.den y.den }
    requires positive { 0 < common }
    ensures { result ≡ narrow (sum_of x y) }
{
    let den = x.den;
    let right = y.den / common;
    let sum = sum_across(x, right, y, den / common);
    let size = sum.unsigned_abs();
    let rest = mixed_gcd_of(size, common);
    fit(
        sum < 0,
        quotient(size, rest as u128),
        (den / rest) as u128 * right as u128,
    )
}

fn sum_across(x: Frac, right: u64, y: Frac, left: u64) -> i128
    requires right { right ≤ widest }
    requires left { left ≤ widest }
    ensures { result ≡ x.num *ℤ pos right +ℤ y.num *ℤ pos left }
{
    times(x.num(), right as i64) + times(y.num(), left as i64)
}

// The product, without what either numerator shares with the other denominator.
fn crossed(x: Frac, y: Frac) -> Result<Frac, FracFault>
    ensures value { result ≡ narrow (product_of x y) }
    ensures lowest { IsLowest x }
{
    fit_product(over(x, y), over(y, x))
}

// A numerator over a denominator, in lowest terms.
fn over(x: Frac, y: Frac) -> Frac
    ensures value { result ≡ low (record { num = x.num; den = y.den }) }
    ensures lowest { IsLowest x }
{
    let common = gcd_of(x.num.unsigned_abs(), y.den);
    if common == 1 {
        Frac {
            num: x.num,
            den: y.den,
        }
    } else {
        Frac {
            num: x.num / common as i64,
            den: y.den / common,
        }
    }
}

fn inverse(x: Frac) -> Frac
    requires { x.num ≢ pos 0 }
    ensures { result ≡ inverse_of x }
{
    let n = x.num;
    let num = with_sign(n < 0, x.den());
    Frac {
        num,
        den: n.unsigned_abs(),
    }
}

// The sign stands apart, since the size of the least i128 is no i128.
fn reduce(negative: bool, n: u128, d: u128) -> Result<Frac, FracFault>
    requires { 0 < d }
    ensures { result ≡ narrow (signed_ratio negative n d) }
{
    let g = wide_gcd_of(n, d);
    fit(negative, quotient(n, g), quotient(d, g))
}

fn fit_sum(x: Frac, y: Frac) -> Result<Frac, FracFault>
    requires { IsLowest (sum_of x y) }
    ensures { result ≡ fitted (sum_of x y) }
{
    fit_signed(cross(x, y) + cross(y, x), common_denominator(x, y))
}

fn fit_product(x: Frac, y: Frac) -> Result<Frac, FracFault>
    requires { IsLowest (product_of x y) }
    ensures { result ≡ fitted (product_of x y) }
{
    fit_signed(product_of_numerators(x, y), common_denominator(x, y))
}

fn fit_signed(n: i128, d: u128) -> Result<Frac, FracFault>
    requires { IsLowest (record { num = n; den = d }) }
    ensures { result ≡ fitted (record { num = n; den = d }) }
{
    fit(n < 0, n.unsigned_abs(), d)
}

const WIDEST: u128 = 0x7fff_ffff_ffff_ffff;

fn fit(negative: bool, n: u128, d: u128) -> Result<Frac, FracFault>
    requires { IsLowest (signed_ratio negative n d) }
    ensures { result ≡ fitted (signed_ratio negative n d) }
{
    if n > WIDEST || d > WIDEST {
        return Err(FracFault::Width);
    }
    let num = with_sign(negative, n as i64);
    Ok(Frac { num, den: d as u64 })
}

fn with_sign(negative: bool, n: i64) -> i64
    requires { pos 0 ≤ℤ n }
    ensures { result ≡ signed_number negative n }
{
    if negative { -n } else { n }
}
