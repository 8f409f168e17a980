//! Quotients of wide numbers.
ghost use Rattle.std.specs.Prelude.{◌≡◌, ◌/◌, ◌<◌};

/// The greatest number of 64 bits, which are divided several times as fast as 128.
pub const SHORT: u128 = 0xffff_ffff_ffff_ffff;

pub fn quotient(a: u128, b: u128) -> u128
    requires { 0 < b }
    ensures { result ≡ a / b }
{
    if b == 1 {
        a
    } else if a <= SHORT && b <= SHORT {
        (a as u64 / b as u64) as u128
    } else {
        a / b
    }
}
